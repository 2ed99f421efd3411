use crate::star::Star;
use query_meaning::{Modifiers, Tree};
use rdf_meaning::Text;
use sqlite_items::Items;

/// A query whose leaves hold stars in place of patterns.
#[derive(Debug, Drop)]
pub struct Plan {
    pub names: Items<Text>,
    pub tree: Tree<Items<Star>>,
    pub modifiers: Modifiers,
}
