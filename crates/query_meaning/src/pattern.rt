use crate::variable::VarId;
use rdf_meaning::Term;

/// A place of a pattern.
#[derive(Debug, Drop)]
pub enum Slot {
    Var(VarId),
    Const(Term),
}

/// A triple pattern (SPARQL 1.1 Query, section 18.1.5), with its number from 1 in order of the text.
#[derive(Debug, Drop)]
pub struct Pattern {
    pub number: u32,
    pub s: Slot,
    pub p: Slot,
    pub o: Slot,
}
