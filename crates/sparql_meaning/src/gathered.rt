//! A group on its way to a pattern of the algebra.

use query_meaning::{Pattern, Tree, TruthExpr};
use sqlite_items::Items;

/// What the elements of a group that were taken so far come to.
#[derive(Debug, Drop)]
pub struct Gathered {
    pub tree: Tree<Items<Pattern>>,
    /// Triple patterns that follow one another up to here, and aren't in the tree yet.
    pub patterns: Items<Pattern>,
    /// The group's own conditions.
    pub conditions: Items<TruthExpr>,
}
