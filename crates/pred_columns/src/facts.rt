//! Plain data on tables and their terms.

use crate::columns::Columns;
use rdf_meaning::Term;
use std::marker::Model;

/// The predicates, out of given ones, that are spilled on each side, in the order given, each once.
#[derive(Debug, Drop)]
pub struct Spilled {
    pub direct: Vec<Term>,
    pub reverse: Vec<Term>,
}

impl Model for Spilled {
    ghost use Rattle.layout_meaning.specs.Facts.{SpilledTerms};

    ghost Value = { SpilledTerms };

    ghost view = { λ s. record { direct = s.direct.items; reverse = s.reverse.items } };
}

/// The columns of both sides, and the spilled predicates out of given ones.
#[derive(Drop)]
pub struct LayoutFacts {
    pub direct: Columns,
    pub reverse: Columns,
    pub spilled: Spilled,
}

impl Model for LayoutFacts {
    ghost use Rattle.layout_meaning.specs.Facts.{FactsOf};

    ghost Value = { FactsOf };

    ghost view = { λ f. record { direct = f.direct; reverse = f.reverse; spilled = f.spilled } };
}

/// A term and its id; the id 0 says that no term of the tables is equal to it.
#[derive(Debug, Drop)]
pub struct IdPair {
    pub term: Term,
    pub id: u32,
}

impl Model for IdPair {
    ghost use Rattle.layout_meaning.specs.Facts.{IdOf};

    ghost Value = { IdOf };

    ghost view = { λ p. record { term = p.term; id = p.id } };
}

/// The ids of given terms, in the order given.
#[derive(Debug, Drop)]
pub struct QueryIds {
    pub pairs: Vec<IdPair>,
}

impl Model for QueryIds {
    ghost use Rattle.std.specs.Prelude.{List};
    ghost use Rattle.layout_meaning.specs.Facts.{IdOf};

    ghost Value = { List IdOf };

    ghost view = { λ q. q.pairs.items };
}

/// A term, and in how many triples it is the subject and the object.
#[derive(Debug, Drop)]
pub struct ConstCount {
    pub term: Term,
    pub as_subject: u64,
    pub as_object: u64,
}

impl Model for ConstCount {
    ghost use Rattle.layout_meaning.specs.Facts.{CountOf};

    ghost Value = { CountOf };

    ghost view = { λ c. record { term = c.term; as_subject = c.as_subject; as_object = c.as_object } };
}

/// How many triples, subjects and objects there are, and the counts of given terms in the order given.
#[derive(Debug, Drop)]
pub struct Counts {
    pub triples: u64,
    pub subjects: u64,
    pub objects: u64,
    pub constants: Vec<ConstCount>,
}

impl Model for Counts {
    ghost use Rattle.layout_meaning.specs.Facts.{CountsOf};

    ghost Value = { CountsOf };

    ghost view = { λ c. record { triples = c.triples; subjects = c.subjects; objects = c.objects; constants = c.constants.items } };
}
