use rdf_meaning::Text;
use sqlite_items::{Boxed, Items};

/// An expression over the rows that are picked from the sources of a SELECT.
#[cycle(bound)]
#[derive(Debug, Drop)]
pub enum BoundExpr {
    /// The number of a source within its SELECT, and of a column within the source, both from 0:
    /// FROM's source stands first, and those of the joins follow in order.
    Cell(usize, usize),
    Int(i128),
    Text(Text),
    Truth(bool),
    Null,
    Equal(Boxed<BoundExpr>, Boxed<BoundExpr>),
    Less(Boxed<BoundExpr>, Boxed<BoundExpr>),
    /// AND of two or more.
    All(Items<BoundExpr>),
    /// OR of two or more.
    Any(Items<BoundExpr>),
    Not(Boxed<BoundExpr>),
    IsNull(Boxed<BoundExpr>),
    /// CASE with one branch or more, and the value where no test is true.
    Case(Items<BoundBranch>, Boxed<BoundExpr>),
    /// COALESCE of two or more: the first that isn't null.
    First(Items<BoundExpr>),
}

/// A branch of CASE.
#[cycle(bound)]
#[derive(Debug, Drop)]
pub struct BoundBranch {
    pub test: BoundExpr,
    pub value: BoundExpr,
}
