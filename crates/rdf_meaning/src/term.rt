//! Terms and triples.

ghost use Rattle.std.specs.Prelude.{◌≡◌, ◌++◌, IfOk};
ghost use Rattle.std.specs.Hash as fed;
ghost use Rattle.std.specs.Cmp as comparisons;
ghost use Rattle.rdf_meaning.specs.TermLaws.{same_term_equiv, same_triple_equiv, same_term_hash, same_triple_hash};
ghost use Rattle.rdf_meaning.specs.Terms.{same_term, same_triple};

use crate::kind::TermKind;
use crate::text::Text;
use std::alloc::{AllocError, Global};
use std::hash::{Hash, Hasher};
use std::marker::Model;

/// A term of RDF. The second text is empty for an IRI and a blank node, the tag in lower case for a
/// tagged literal, and the datatype's IRI for a typed one; a plain literal has the type `xsd:string`.
#[derive(Debug, Drop)]
pub struct Term {
    pub kind: TermKind,
    pub text: Text,
    pub aux: Text,
}

impl Model for Term {
    ghost use Rattle.std.specs.Prelude.{IsTrue};
    ghost use Rattle.rdf_meaning.specs.Terms.{RdfTerm, is_term};

    ghost Value = { RdfTerm };

    ghost view = { λ t. record { kind = t.kind; text = t.text; aux = t.aux } };

    ghost invariant = { λ t. IsTrue (is_term t.kind t.text t.aux) };
}

/// A triple, whose subject is an IRI or a blank node and whose predicate is an IRI.
#[derive(Debug, Drop)]
pub struct Triple {
    pub s: Term,
    pub p: Term,
    pub o: Term,
}

impl Model for Triple {
    ghost use Rattle.std.specs.Prelude.{IsTrue};
    ghost use Rattle.rdf_meaning.specs.Terms.{RdfTriple, can_be_subject, can_be_predicate};

    ghost Value = { RdfTriple };

    ghost view = { λ t. record { s = t.s; p = t.p; o = t.o } };

    ghost invariant = { λ t. IsTrue (can_be_subject t.s.kind) × IsTrue (can_be_predicate t.p.kind) };
}

impl Term {
    /// An equal term.
    pub fn copy(&self, alloc: Global) -> Result<Term, AllocError>
        ensures { IfOk result (λ term. term ≡ self.now) }
    {
        Ok(Term {
            kind: self.kind,
            text: self.text.copy(alloc)?,
            aux: self.aux.copy(alloc)?,
        })
    }
}

impl Triple {
    /// An equal triple.
    pub fn copy(&self, alloc: Global) -> Result<Triple, AllocError>
        ensures { IfOk result (λ triple. triple ≡ self.now) }
    {
        Ok(Triple {
            s: self.s.copy(alloc)?,
            p: self.p.copy(alloc)?,
            o: self.o.copy(alloc)?,
        })
    }
}

impl PartialEq for Term {
    ghost eq = { same_term };

    ghost laws = { comparisons.partial_equiv_from_equiv same_term_equiv };

    fn eq(&self, other: &Term) -> bool {
        self.kind == other.kind && self.text == other.text && self.aux == other.aux
    }
}

impl Eq for Term {
    ghost laws = { same_term_equiv };
}

// The text alone tells most terms apart.
impl Hash for Term {
    ghost hash_input = { λ t. fed.str t.text };

    ghost respects_eq = { same_term_hash };

    fn hash<H: Hasher>(&self, state: &mut H) {
        self.text.hash(state);
    }
}

impl PartialEq for Triple {
    ghost eq = { same_triple };

    ghost laws = { comparisons.partial_equiv_from_equiv same_triple_equiv };

    fn eq(&self, other: &Triple) -> bool {
        self.s == other.s && self.p == other.p && self.o == other.o
    }
}

impl Eq for Triple {
    ghost laws = { same_triple_equiv };
}

// Subject and object tell most triples apart.
impl Hash for Triple {
    ghost hash_input = { λ t. fed.str t.s.text ++ fed.str t.o.text };

    ghost respects_eq = { same_triple_hash };

    fn hash<H: Hasher>(&self, state: &mut H) {
        self.s.hash(state);
        self.o.hash(state);
    }
}
