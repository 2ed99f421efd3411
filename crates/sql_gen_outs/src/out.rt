use query_meaning::VarId;
use sparql_variables::VarSet;
use sql_gen_numbered_meaning::NumberedBody;
use sqlite_items::Items;

/// The numbered steps of a node, the number of its last one, the variables of that step's rows in the order of their columns,
/// and the variables that each row binds.
#[derive(Debug, Drop)]
pub struct Out {
    pub steps: Vec<NumberedBody>,
    pub last: usize,
    pub variables: Items<VarId>,
    pub certain: VarSet,
}
