use crate::variable::VarId;
use rdf_meaning::Term;
use sqlite_items::{Boxed, Items};

#[derive(Clone, Copy, Debug, PartialEq, Eq)]
pub enum CompareOp {
    Equal,
    NotEqual,
    Less,
    Greater,
    LessEqual,
    GreaterEqual,
}

#[derive(Clone, Copy, Debug, PartialEq, Eq)]
pub enum TermTest {
    Iri,
    Blank,
    Literal,
}

/// An expression that gives a term or an error (SPARQL 1.1 Query, section 17.4.2).
#[derive(Debug, Drop)]
pub enum ValueExpr {
    Var(VarId),
    Const(Term),
    Str(Boxed<ValueExpr>),
    Lang(Boxed<ValueExpr>),
    Datatype(Boxed<ValueExpr>),
}

/// An expression that gives true, false or an error (SPARQL 1.1 Query, section 17).
#[derive(Debug, Drop)]
pub enum TruthExpr {
    /// A value's effective boolean value.
    Value(ValueExpr),
    Bound(VarId),
    Compare(CompareOp, ValueExpr, ValueExpr),
    /// Whether the first value is one of the others.
    OneOf(ValueExpr, Items<ValueExpr>),
    SameTerm(ValueExpr, ValueExpr),
    Is(TermTest, ValueExpr),
    Not(Boxed<TruthExpr>),
    All(Items<TruthExpr>),
    Any(Items<TruthExpr>),
}
