//! A list of distinct terms, found by their hashes.

ghost use Rattle.std.specs.Prelude.{◌≡◌, ◌≢◌, ◌≤◌, ◌<◌, ◌+◌, ◌-◌, ◌++◌, ◌∷◌, [], length, Contains, AllPairs, Err, Some, OnOk, OnErr, IfOk, MatchOption};
ghost use Rattle.std.specs.List.{IsDistinct};
ghost use Rattle.rdf_meaning.specs.Terms.{same_term};
ghost use Rattle.term_book.specs.Book.{HasId, IsNoted, IsFull, IsPlaceOf};

use crate::refusal::BookRefusal;
use indexmap::IndexSet;
use rdf_meaning::{Term, TermId};
use std::alloc::{AllocFailed, Global};
use std::marker::Model;

/// How many terms a book holds at most.
pub const MOST_TERMS: usize = 4_000_000;

/// A dictionary of terms: contracts see the list of its distinct terms, whose first one has the
/// id 1.
#[derive(Drop)]
pub struct TermBook {
    terms: IndexSet<Term>,
}

impl Model for TermBook {
    ghost use Rattle.std.specs.Prelude.{List, length, ◌≤◌};
    ghost use Rattle.std.specs.List.{IsDistinct};
    ghost use Rattle.rdf_meaning.specs.Terms.{RdfTerm, same_term};

    ghost Value = { List RdfTerm };

    ghost view = { λ b. b.terms.keys };

    ghost invariant = { λ b. (length b.terms.keys ≤ 4000000) × IsDistinct same_term b.terms.keys };
}

// The place of a term in a set.
fn place(terms: &IndexSet<Term>, t: &Term) -> Option<usize>
    ensures cases { MatchOption result (¬ Contains terms.now.keys t.now) (IsPlaceOf terms.now.keys t.now) }
{
    terms.get_index_of(t)
}

// Puts a term that isn't there last.
fn append(terms: &mut IndexSet<Term>, t: Term) -> Result<(), AllocFailed<Term>>
    requires { ¬ Contains terms.old.keys t }
    ensures ok { OnOk result (terms.new.keys ≡ terms.old.keys ++ t ∷ []) }
    ensures id { OnOk result (HasId terms.new.keys t (length terms.old.keys + 1)) }
    ensures err { OnErr result (terms.new.keys ≡ terms.old.keys) }
    ensures distinct { IsDistinct same_term terms.new.keys }
{
    terms.insert(t)?;
    Ok(())
}

// The id of the term at a place.
fn id_at(place: usize) -> TermId
    requires { place < 4000000 }
    ensures { result ≡ place + 1 }
{
    TermId::new(place as u32 + 1)
}

impl TermBook {
    /// A book without terms; takes no memory.
    pub fn new(alloc: Global) -> TermBook
        ensures { result ≡ [] }
    {
        TermBook {
            terms: IndexSet::new(alloc),
        }
    }

    /// How many terms are held.
    pub fn count(&self) -> u32
        ensures value { result ≡ length self.now }
        ensures within { length self.now ≤ 4000000 }
        ensures distinct { AllPairs (λ a b. a ≢ b) self.now }
    {
        self.terms.len() as u32
    }

    /// The term with this id.
    pub fn term(&self, id: TermId) -> &Term
        requires { id ≤ length self.now }
        ensures { HasId self.now result.now id }
    {
        &self.terms[(id.number() - 1) as usize]
    }

    /// The id of a term; None exactly where the term isn't held.
    pub fn find(&self, t: &Term) -> Option<TermId>
        ensures { MatchOption result (¬ Contains self.now t.now) (HasId self.now t.now) }
    {
        match place(&self.terms, t) {
            Some(at) => Some(id_at(at)),
            None => None,
        }
    }

    /// The id that the term has or gets as the last one of the book. Full comes exactly where
    /// `MOST_TERMS` terms are held and the term isn't among them; after an error the book is as
    /// before.
    pub fn intern(&mut self, alloc: Global, t: &Term) -> Result<TermId, BookRefusal>
        ensures id { IfOk result (HasId self.new t.now) }
        ensures book { OnOk result (IsNoted self.old t.now self.new) }
        ensures full { result ≡ Err BookRefusal.Full → IsFull self.old t.now }
        ensures refused { OnOk result (¬ IsFull self.old t.now) }
        ensures err { OnErr result (self.new ≡ self.old) }
    {
        if let Some(at) = place(&self.terms, t) {
            return Ok(id_at(at));
        }
        let at = self.terms.len();
        if at >= MOST_TERMS {
            return Err(BookRefusal::Full);
        }
        let owned = t.copy(alloc)?;
        append(&mut self.terms, owned)?;
        Ok(id_at(at))
    }
}
