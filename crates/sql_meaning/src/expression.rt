use rdf_meaning::Text;
use sqlite_items::{Boxed, Items};
use table_meaning::Kind;

/// An expression over the rows of the sources in front of it.
#[cycle(sql)]
#[derive(Debug, Drop)]
pub enum SqlExpr {
    /// A source's alias and a column of the source.
    Name(Text, Text),
    Int(i128),
    Text(Text),
    Truth(bool),
    /// A null of a kind.
    Null(Kind),
    Equal(Boxed<SqlExpr>, Boxed<SqlExpr>),
    Less(Boxed<SqlExpr>, Boxed<SqlExpr>),
    /// AND of two or more.
    All(Items<SqlExpr>),
    /// OR of two or more.
    Any(Items<SqlExpr>),
    Not(Boxed<SqlExpr>),
    IsNull(Boxed<SqlExpr>),
    /// CASE with one branch or more, and the value where no test is true.
    Case(Items<Branch>, Boxed<SqlExpr>),
    /// COALESCE of two or more: the first that isn't null.
    First(Items<SqlExpr>),
}

/// A branch of CASE.
#[cycle(sql)]
#[derive(Debug, Drop)]
pub struct Branch {
    pub test: SqlExpr,
    pub value: SqlExpr,
}
