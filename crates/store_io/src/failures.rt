ghost use Rattle.std.specs.Prelude.{◌≡◌, ◌++◌, ◌∷◌, [], OnOk, OnErr};

use std::alloc::{AllocError, Global};
use std::marker::Model;

/// The names whose reads failed, in order of the reads.
#[derive(Drop)]
pub(crate) struct Failures {
    names: Vec<String>,
}

impl Model for Failures {
    ghost use Rattle.std.specs.Prelude.{List, ℕ, map, string_bytes};

    ghost Value = { List (List ℕ) };

    ghost view = { λ f. map string_bytes f.names.items };
}

impl Failures {
    pub(crate) fn new(alloc: Global) -> Failures
        ensures { result ≡ [] }
    {
        Failures {
            names: Vec::new(alloc),
        }
    }

    pub(crate) fn note(&mut self, alloc: Global, name: &str) -> Result<(), AllocError>
        ensures ok { OnOk result (self.new ≡ self.old ++ name.now ∷ []) }
        ensures err { OnErr result (self.new ≡ self.old) }
    {
        self.names.push(String::from_str(alloc, name)?)?;
        Ok(())
    }
}
