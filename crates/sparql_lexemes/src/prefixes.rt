//! The prefixes that a query declares.

ghost use Rattle.std.specs.Prelude.{◌≡◌, ◌∷◌, [], List, OnOk};
ghost use Rattle.std.specs.Option.{option_copied};
ghost use Rattle.sparql_query_meaning.specs.Prefixes.{Declared, iri_of};
ghost use Rattle.sparql_lexemes.specs.Scopes.{StandFor, declaration};

use indexmap::IndexMap;
use rdf_meaning::Text;
use std::alloc::{AllocError, Global};
use std::marker::Model;

/// The IRI of each prefix that is declared, by its latest declaration.
#[derive(Drop)]
pub struct Prefixes {
    iris: IndexMap<Text, Text>,
}

impl Model for Prefixes {
    ghost use Rattle.std.specs.Prelude.{List, ℕ};

    ghost Value = { List (List ℕ × List ℕ) };

    ghost view = { λ p. p.iris.entries };
}

impl Prefixes {
    #[tactic(auto, using(crate::specs::Scopes::prefix_paths))]
    pub fn new(alloc: Global) -> Prefixes
        ensures { StandFor result [] }
    {
        Prefixes {
            iris: IndexMap::new(alloc),
        }
    }

    /// The IRI that a prefix stands for, or None where it isn't declared.
    pub fn iri(&self, prefix: &Text) -> Option<&Text>
        ensures { (ds : List Declared) → StandFor self.now ds → option_copied result ≡ iri_of ds prefix.now }
    {
        self.iris.get(prefix)
    }

    /// From here on the prefix stands for this IRI.
    pub fn declare(&mut self, prefix: Text, iri: Text) -> Result<(), AllocError>
        ensures { OnOk result ((ds : List Declared) → StandFor self.old ds → StandFor self.new (declaration prefix iri ∷ ds)) }
    {
        self.iris.insert(prefix, iri)?;
        Ok(())
    }
}
