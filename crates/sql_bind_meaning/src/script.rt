use crate::expression::BoundExpr;
use sqlite_items::Items;

/// The steps, each of which may use those before it, and the body whose rows are the answer.
///
/// A relation has a number from 0: the given tables stand first in their order, and the steps
/// follow in order.
#[derive(Debug, Drop)]
pub struct BoundScript {
    pub steps: Items<BoundBody>,
    pub last: BoundBody,
}

/// One SELECT, or several joined by UNION ALL.
#[derive(Debug, Drop)]
pub struct BoundBody {
    pub cores: Items<BoundCore>,
}

/// One SELECT.
#[derive(Debug, Drop)]
pub struct BoundCore {
    pub distinct: bool,
    /// The expressions of the rows' columns.
    pub items: Items<BoundExpr>,
    /// The number of FROM's relation.
    pub from: Option<usize>,
    pub joins: Items<BoundJoin>,
    /// The condition of WHERE.
    pub condition: Option<BoundExpr>,
    pub keys: Items<BoundKey>,
    /// The count of LIMIT.
    pub most: Option<u64>,
    /// The count of OFFSET.
    pub skip: Option<u64>,
}

/// A JOIN or a LEFT JOIN.
#[derive(Debug, Drop)]
pub struct BoundJoin {
    pub left: bool,
    /// The number of the relation.
    pub relation: usize,
    pub on: BoundExpr,
}

/// A key of ORDER BY.
#[derive(Debug, Drop)]
pub struct BoundKey {
    pub expr: BoundExpr,
    /// Whether DESC stands behind it.
    pub down: bool,
}

// Takes what pieces may read at the same time.
fn share<T: Sync>(_value: &T) {}

/// A bound script, with its expressions, may be read by several threads at the same time.
pub fn share_script(script: &BoundScript) {
    share(script)
}
