use crate::expression::SqlExpr;
use rdf_meaning::Text;
use sqlite_items::Items;

/// Named steps, each of which may use those before it, and the body whose rows are the answer.
#[derive(Debug, Drop)]
pub struct Script {
    pub steps: Items<Step>,
    pub last: Body,
}

/// One step of WITH.
#[derive(Debug, Drop)]
pub struct Step {
    pub name: Text,
    pub body: Body,
}

/// One SELECT, or several joined by UNION ALL.
#[derive(Debug, Drop)]
pub struct Body {
    pub cores: Items<Core>,
}

/// One SELECT.
#[derive(Debug, Drop)]
pub struct Core {
    pub distinct: bool,
    pub items: Items<Item>,
    pub from: Option<Source>,
    pub joins: Items<JoinTo>,
    /// The condition of WHERE.
    pub condition: Option<SqlExpr>,
    pub keys: Items<SqlKey>,
    /// The count of LIMIT.
    pub most: Option<u64>,
    /// The count of OFFSET.
    pub skip: Option<u64>,
}

/// A column of a SELECT's rows.
#[derive(Debug, Drop)]
pub struct Item {
    pub expr: SqlExpr,
    pub name: Text,
}

/// A table or an earlier step, under the name by which expressions call it.
#[derive(Debug, Drop)]
pub struct Source {
    pub table: Text,
    pub alias: Text,
}

/// A JOIN or a LEFT JOIN.
#[derive(Debug, Drop)]
pub struct JoinTo {
    pub left: bool,
    pub source: Source,
    pub on: SqlExpr,
}

/// A key of ORDER BY.
#[derive(Debug, Drop)]
pub struct SqlKey {
    pub expr: SqlExpr,
    /// Whether DESC stands behind it.
    pub down: bool,
}
