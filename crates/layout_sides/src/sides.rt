//! Both sides together.

ghost use Rattle.std.specs.Prelude.{◌≡◌, ◌⊎◌, ◌≤◌, ◌+◌, ◌^◌, false, IfOk, OnOk, OnErr, Ok, Err};
ghost use Rattle.bags.specs.Bag.{total};
ghost use Rattle.layout_meaning.specs.Side.{is_held, items};
ghost use Rattle.layout_standing_meaning.specs.Sides.{both_placed, both_taken, AreSides, AreAsBefore};
ghost use Rattle.value_lists.specs.Answers.{put_of};
ghost use Rattle.primary_rows.specs.Answers.{took_of};
ghost use Rattle.layout_sides.specs.Items.{item_of};

use primary_rows::{Side, SideRefusal, Took};
use rdf_meaning::{TermId, Text};
use std::alloc::Global;
use std::marker::Model;
use value_lists::Put;

/// A triple by the ids of its subject, predicate and object.
#[derive(Clone, Copy, Debug, PartialEq, Eq)]
pub struct IdTriple {
    pub subject: TermId,
    pub predicate: TermId,
    pub object: TermId,
}

/// The direct and the reverse side, which hold the same triples.
#[derive(Drop)]
pub struct TripleSides {
    direct: Side,
    reverse: Side,
}

impl Model for TripleSides {
    ghost use Rattle.layout_standing_meaning.specs.Sides.{SidesOf, AreSides};

    ghost Value = { SidesOf };

    ghost view = { λ s. record { direct = s.direct; reverse = s.reverse } };

    ghost invariant = { λ s. AreSides (record { direct = s.direct; reverse = s.reverse }) };
}

impl TripleSides {
    /// Both sides as they are; the reverse side holds the items of the direct side, turned.
    pub fn of(direct: Side, reverse: Side) -> TripleSides
        requires { AreSides (record { direct = direct; reverse = reverse }) }
        ensures { result ≡ record { direct = direct; reverse = reverse } }
    {
        TripleSides { direct, reverse }
    }

    /// Puts a triple into both sides; its predicate has this IRI. There comes exactly where it is held.
    /// ListsFull comes exactly where a side needs a list after the last list id was given out. After an
    /// error the rows and lists are as before, and at most one list id is used up.
    pub fn insert(&mut self, alloc: Global, t: IdTriple, iri: &Text) -> Result<Put, SideRefusal>
        ensures sides { OnOk result (self.new ≡ both_placed self.old iri.now (item_of t)) }
        ensures put { IfOk result (λ put. put ≡ put_of (is_held (item_of t) self.old.direct.state)) }
        ensures direct_room { result ≡ Ok Put.Added → ((both_placed self.old iri.now (item_of t)).direct.state.next ≤ 2 ^ 62) }
        ensures reverse_room { result ≡ Ok Put.Added → ((both_placed self.old iri.now (item_of t)).reverse.state.next ≤ 2 ^ 62) }
        ensures full { result ≡ Err SideRefusal.ListsFull → ((both_placed self.old iri.now (item_of t)).direct.state.next ≡ 2 ^ 62 + 1) ⊎ ((both_placed self.old iri.now (item_of t)).reverse.state.next ≡ 2 ^ 62 + 1) }
        ensures err { OnErr result (AreAsBefore self.old self.new) }
        ensures new { OnErr result (is_held (item_of t) self.old.direct.state ≡ false) }
    {
        let (subject, predicate, object) = numbers(t);
        match self.direct.insert(alloc, subject, predicate, iri, object)? {
            Put::There => Ok(Put::There),
            Put::Added => match self.reverse.insert(alloc, object, predicate, iri, subject) {
                Ok(_added) => Ok(Put::Added),
                Err(refusal) => {
                    self.direct.delete(subject, predicate, object);
                    Err(refusal)
                }
            },
        }
    }

    /// Takes a triple out of both sides. Absent comes exactly where it isn't held. It takes no memory.
    pub fn delete(&mut self, t: IdTriple) -> Took
        ensures sides { self.new ≡ both_taken self.old (item_of t) }
        ensures took { result ≡ took_of (is_held (item_of t) self.old.direct.state) }
    {
        let (subject, predicate, object) = numbers(t);
        self.reverse.delete(object, predicate, subject);
        self.direct.delete(subject, predicate, object)
    }

    /// Whether a triple is held.
    pub fn holds(&self, t: IdTriple) -> bool
        ensures { result ≡ is_held (item_of t) self.now.direct.state }
    {
        let (subject, predicate, object) = numbers(t);
        self.direct.holds(subject, predicate, object)
    }

    /// How many triples are held.
    pub fn count(&self) -> u64
        ensures count { result ≡ total (λ x. 1) (items self.now.direct.state) }
        ensures sides { AreSides self.now }
    {
        self.direct.item_count()
    }

    /// The side of the subjects.
    pub fn direct(&self) -> &Side
        ensures { result.now ≡ self.now.direct }
    {
        &self.direct
    }

    /// The side of the objects.
    pub fn reverse(&self) -> &Side
        ensures { result.now ≡ self.now.reverse }
    {
        &self.reverse
    }
}

/// The ids as numbers.
fn numbers(t: IdTriple) -> (u32, u32, u32)
    ensures subject { result.0 ≡ t.subject }
    ensures predicate { result.1 ≡ t.predicate }
    ensures object { result.2 ≡ t.object }
    ensures low { 1 ≤ t.predicate }
{
    (t.subject.number(), t.predicate.number(), t.object.number())
}
