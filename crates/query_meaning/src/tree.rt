use crate::expression::TruthExpr;
use sqlite_items::Boxed;

/// A pattern of the algebra over leaves of some kind (SPARQL 1.1 Query, section 18.2).
#[derive(Debug, Drop)]
pub enum Tree<L> {
    Leaf(L),
    Join(Boxed<Tree<L>>, Boxed<Tree<L>>),
    LeftJoin(Boxed<Tree<L>>, Boxed<Tree<L>>, Option<TruthExpr>),
    Union(Boxed<Tree<L>>, Boxed<Tree<L>>),
    Filter(TruthExpr, Boxed<Tree<L>>),
}
