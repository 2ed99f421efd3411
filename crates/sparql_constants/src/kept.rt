//! Terms, each at its first place.

ghost use Rattle.std.specs.Prelude.{◌≡◌, ◌∷◌, [], IfOk, OnOk};
ghost use Rattle.sparql_meaning.specs.Constants.{kept_once};

use indexmap::IndexSet;
use rdf_meaning::Term;
use std::alloc::{AllocError, Global};
use std::marker::Model;

/// Distinct terms, found by their hashes: contracts see their list.
#[derive(Drop)]
pub(crate) struct Kept {
    terms: IndexSet<Term>,
}

impl Model for Kept {
    ghost use Rattle.std.specs.Prelude.{List};
    ghost use Rattle.rdf_meaning.specs.Terms.{RdfTerm};

    ghost Value = { List RdfTerm };

    ghost view = { λ k. k.terms.keys };
}

impl Kept {
    /// No term yet; takes no memory.
    pub(crate) fn new(alloc: Global) -> Kept
        ensures { result ≡ [] }
    {
        Kept {
            terms: IndexSet::new(alloc),
        }
    }

    /// A term that is there stays where it is.
    pub(crate) fn keep(&mut self, alloc: Global, term: &Term) -> Result<(), AllocError>
        ensures { OnOk result (self.new ≡ kept_once self.old (term.now ∷ [])) }
    {
        let copy = term.copy(alloc)?;
        self.terms.insert(copy)?;
        Ok(())
    }

    /// The terms in the order in which they came.
    pub(crate) fn into_terms(self, alloc: Global) -> Result<Vec<Term>, AllocError>
        ensures { IfOk result (λ terms. terms.items ≡ self) }
    {
        let terms = Vec::from_iter(alloc, self.terms)?;
        Ok(terms)
    }
}
