//! The triples that are present after changes, within the limits.

ghost use Rattle.std.specs.Prelude.{◌≡◌, ◌<◌, ◌≤◌, IfOk, IfErr, OnOk, None, Some, length, fold, false, option_map, slice_get};
ghost use Rattle.std.specs.List.{IsDistinct};
ghost use Rattle.bags.specs.Bag.{SameBag};
ghost use Rattle.rdf_meaning.specs.Terms.{same_triple};
ghost use Rattle.line_change_meaning.specs.Present.{present};
ghost use Rattle.line_change_meaning.specs.declared.change.Change.TheVariants.{Add};
ghost use Rattle.run_meaning.specs.Limits.{terms_needed, passed_limit};
ghost use Rattle.rdf_triples.specs.Taking.{nothing_held, is_held, with_new, without, take_change, limit_of_new, limit_at, limit_from};
ghost use Rattle.rdf_triples.specs.Refusals.{Refuses};

use crate::ids::{IdTriple, ids_of, note_terms};
use crate::refusal::LoadRefusal;
use indexmap::IndexSet;
use line_change_meaning::Change;
use rdf_meaning::{Term, Triple};
use run_meaning::Which;
use std::alloc::Global;
use std::marker::Model;
use term_book::TermBook;

/// The most triples that are present at once.
pub const MOST_TRIPLES: usize = 1_000_000;

/// The triples that are present, each once: contracts see the terms of the dictionary, and the
/// triples with their terms.
#[derive(Drop)]
pub struct PlainTriples {
    terms: TermBook,
    present: IndexSet<IdTriple>,
}

impl Model for PlainTriples {
    ghost use Rattle.rdf_triples.specs.Held as held;

    ghost Value = { held.Held };

    ghost view = { λ t. record { terms = t.terms; triples = held.triples_of t.terms t.present.keys } };

    ghost invariant = { λ t. held.IsSound t.terms t.present.keys };
}

impl PlainTriples {
    fn new(alloc: Global) -> PlainTriples
        ensures { result ≡ nothing_held }
    {
        PlainTriples {
            terms: TermBook::new(alloc),
            present: IndexSet::new(alloc),
        }
    }

    fn holds(&self, triple: &Triple) -> bool
        ensures { result ≡ is_held self.now triple.now }
    {
        match ids_of(&self.terms, triple) {
            Some(ids) => self.present.contains(&ids),
            None => false,
        }
    }

    // Adds a triple that isn't present.
    fn add_new(&mut self, alloc: Global, triple: &Triple) -> Result<(), LoadRefusal>
        requires { is_held self.old triple.now ≡ false }
        ensures ok { OnOk result (self.new ≡ with_new self.old triple.now) }
        ensures within { OnOk result (limit_of_new self.old triple.now ≡ None) }
        ensures passed { IfErr result (λ e. Refuses e (limit_of_new self.old triple.now)) }
    {
        if self.present.len() >= MOST_TRIPLES {
            return Err(LoadRefusal::Limit(Which::Triples));
        }
        let ids = note_terms(&mut self.terms, alloc, triple)?;
        self.present.insert(ids)?;
        Ok(())
    }

    // A deletion needs no term: where one isn't held, the triple isn't present.
    fn delete(&mut self, triple: &Triple)
        ensures { self.new ≡ without self.old triple.now }
    {
        if let Some(ids) = ids_of(&self.terms, triple) {
            self.present.swap_remove(&ids);
        }
    }

    fn add(&mut self, alloc: Global, triple: &Triple) -> Result<(), LoadRefusal>
        ensures ok { OnOk result (self.new ≡ take_change self.old (Add triple.now)) }
        ensures within { OnOk result (limit_at self.old (Add triple.now) ≡ None) }
        ensures passed { IfErr result (λ e. Refuses e (limit_at self.old (Add triple.now))) }
    {
        if self.holds(triple) {
            return Ok(());
        }
        self.add_new(alloc, triple)
    }

    fn take(&mut self, alloc: Global, change: Change) -> Result<(), LoadRefusal>
        ensures ok { OnOk result (self.new ≡ take_change self.old change) }
        ensures within { OnOk result (limit_at self.old change ≡ None) }
        ensures passed { IfErr result (λ e. Refuses e (limit_at self.old change)) }
    {
        match change {
            Change::Add(triple) => self.add(alloc, &triple),
            Change::Delete(triple) => {
                self.delete(&triple);
                Ok(())
            }
        }
    }

    /// How many triples are present.
    pub fn count(&self) -> usize
        ensures value { result ≡ length self.now.triples }
        ensures within { result ≤ 1000000 }
        ensures distinct { IsDistinct same_triple self.now.triples }
    {
        self.present.len()
    }

    /// The subject of the triple at this place.
    pub fn subject(&self, at: usize) -> &Term
        requires { at < length self.now.triples }
        ensures { option_map (λ triple. triple.s) (slice_get self.now.triples at) ≡ Some result.now }
    {
        self.terms.term(self.present[at].subject)
    }

    /// The predicate of the triple at this place.
    pub fn predicate(&self, at: usize) -> &Term
        requires { at < length self.now.triples }
        ensures { option_map (λ triple. triple.p) (slice_get self.now.triples at) ≡ Some result.now }
    {
        self.terms.term(self.present[at].predicate)
    }

    /// The object of the triple at this place.
    pub fn object(&self, at: usize) -> &Term
        requires { at < length self.now.triples }
        ensures { option_map (λ triple. triple.o) (slice_get self.now.triples at) ≡ Some result.now }
    {
        self.terms.term(self.present[at].object)
    }
}

fn take_all(alloc: Global, changes: Vec<Change>) -> Result<PlainTriples, LoadRefusal>
    ensures ok { IfOk result (λ held. held ≡ fold take_change nothing_held changes.items) }
    ensures within { OnOk result (limit_from nothing_held changes.items ≡ None) }
    ensures passed { IfErr result (λ e. Refuses e (limit_from nothing_held changes.items)) }
{
    let mut held = PlainTriples::new(alloc);
    'changes: for change in changes {
        held.take(alloc, change)?;
    }
    Ok(held)
}

/// The triples that are present after the changes, and the terms that the changes need, each once,
/// in order of first need; or the limit that the first change that passes one passes.
pub fn load(alloc: Global, changes: Vec<Change>) -> Result<PlainTriples, LoadRefusal>
    ensures ok { IfOk result (λ held. SameBag held.triples (present changes.items)) }
    ensures terms { IfOk result (λ held. held.terms ≡ terms_needed changes.items) }
    ensures within { OnOk result (passed_limit changes.items ≡ None) }
    ensures passed { IfErr result (λ e. Refuses e (passed_limit changes.items)) }
{
    take_all(alloc, changes)
}
