use query_meaning::VarId;
use rdf_meaning::SideName;
use sql_gen_star_meaning::{Asked, StarArm};
use sql_meaning::SqlExpr;
use sqlite_items::Items;

/// The SELECTs of one step of a compiled query. It reads earlier steps by their numbers, and a step's number is its place in
/// the list. Beside the number of a step stand the variables of its rows.
#[derive(Debug, Drop)]
pub enum NumberedBody {
    /// One row that binds nothing.
    Single,
    /// Each row of a side's primary table that has the entity, with the cell of each arm; where `spilled` is false, the rows
    /// of number 0 alone.
    Access {
        side: SideName,
        spilled: bool,
        entity: Asked,
        arms: Items<StarArm>,
    },
    /// Each pair of each such row, for a predicate that is a variable; the pairs stand in so many columns.
    Pairs {
        side: SideName,
        entity: Asked,
        predicate: Asked,
        columns: u32,
    },
    /// A step's rows with each value of the cell of one arm, by the arm's place; the cells of the arms in `later` stay.
    Open {
        side: SideName,
        first: usize,
        firsts: Items<VarId>,
        arm: u32,
        later: Items<u32>,
        asked: Asked,
    },
    /// The rows of two steps that fit, by JOIN or LEFT JOIN; both steps bind the certain variables in each row.
    Joined {
        left: bool,
        first: usize,
        second: usize,
        firsts: Items<VarId>,
        seconds: Items<VarId>,
        certain: Items<VarId>,
    },
    /// The rows of two steps.
    United {
        first: usize,
        second: usize,
        firsts: Items<VarId>,
        seconds: Items<VarId>,
    },
    /// The rows of a step of which a condition is true, over the terms of some variables.
    Filtered {
        first: usize,
        firsts: Items<VarId>,
        terms: Items<VarId>,
        condition: SqlExpr,
    },
    /// The pairs of rows of two steps that fit: what both bind, and beside it what the first one binds.
    Matched {
        first: usize,
        second: usize,
        firsts: Items<VarId>,
        seconds: Items<VarId>,
        certain: Items<VarId>,
    },
    /// Those pairs of which a condition is true, over the terms of some variables.
    Passed {
        pairs: usize,
        firsts: Items<VarId>,
        seconds: Items<VarId>,
        terms: Items<VarId>,
        condition: SqlExpr,
    },
    /// The pairs, and the rows of the first step that have none; that step binds the certain variables in each row.
    Optional {
        first: usize,
        pairs: usize,
        firsts: Items<VarId>,
        seconds: Items<VarId>,
        certain: Items<VarId>,
    },
    /// The different rows of a step, with the columns of some variables alone.
    Distinct {
        first: usize,
        firsts: Items<VarId>,
        shown: Items<VarId>,
    },
}
