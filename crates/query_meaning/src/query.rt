use crate::expression::TruthExpr;
use crate::modifiers::Modifiers;
use crate::pattern::Pattern;
use crate::tree::Tree;
use rdf_meaning::Text;
use sqlite_items::Items;

/// A query of the algebra; the name of variable v is the one at place v.
#[derive(Debug, Drop)]
pub struct Query {
    pub names: Items<Text>,
    pub tree: Tree<Items<Pattern>>,
    pub modifiers: Modifiers,
}

/// An element of a group, as it is written.
#[derive(Debug, Drop)]
#[cycle(group)]
pub enum Element {
    Triples(Items<Pattern>),
    Optional(Group),
    /// Groups with UNION between them; one alone is a group in a group.
    Unions(Items<Group>),
    Condition(TruthExpr),
}

/// What stands between a pair of braces.
#[derive(Debug, Drop)]
#[cycle(group)]
pub struct Group {
    pub elements: Items<Element>,
}

/// A query as it is written.
#[derive(Debug, Drop)]
pub struct Syntax {
    pub names: Items<Text>,
    pub group: Group,
    pub modifiers: Modifiers,
}
