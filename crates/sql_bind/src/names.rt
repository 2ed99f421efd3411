//! Names of which none may stand twice.

ghost use Rattle.std.specs.Prelude.{◌≡◌, ◌∷◌, [], not, if◌then◌else◌, IfOk};
ghost use Rattle.std.specs.List.{list_any};
ghost use Rattle.std.specs.Str.{bytes_eq};

use indexmap::IndexSet;
use rdf_meaning::Text;
use std::alloc::{AllocError, Global};
use std::marker::Model;

/// Names that have come; contracts see the last one first.
#[derive(Drop)]
pub(crate) struct Names {
    names: IndexSet<Text>,
}

impl Model for Names {
    ghost use Rattle.std.specs.Prelude.{List, ℕ, reverse};

    ghost Value = { List (List ℕ) };

    ghost view = { λ n. reverse n.names.keys };
}

impl Names {
    pub(crate) fn new(alloc: Global) -> Names
        ensures { result ≡ [] }
    {
        Names {
            names: IndexSet::new(alloc),
        }
    }

    /// Notes a name, and tells whether it is new.
    #[tactic(auto, using(crate::proofs::NameSteps::told_of_reversed, crate::proofs::NameSteps::noted))]
    pub(crate) fn add(&mut self, alloc: Global, name: &Text) -> Result<bool, AllocError>
        ensures new { IfOk result (λ new. new ≡ not (list_any (bytes_eq name.now) self.old)) }
        ensures noted { IfOk result (λ new. self.new ≡ (if new then name.now ∷ self.old else self.old)) }
    {
        Ok(self.names.insert(name.copy(alloc)?)?)
    }
}
