//! What is counted of a store.

use std::marker::Model;

/// The columns, rows, lists and spilled predicates of a side.
#[derive(Debug, Drop)]
pub struct SideStats {
    pub columns: u32,
    pub rows: u64,
    pub lists: u64,
    pub spilled: u64,
}

impl Model for SideStats {
    ghost use Rattle.layout_stats_meaning.specs.Statistics.{SideStatsOf};

    ghost Value = { SideStatsOf };

    ghost view = { λ s. record { columns = s.columns; rows = s.rows; lists = s.lists; spilled = s.spilled } };
}

/// The triples and terms of a store, and what is counted of both sides.
#[derive(Debug, Drop)]
pub struct Stats {
    pub triples: u64,
    pub terms: u64,
    pub direct: SideStats,
    pub reverse: SideStats,
}

impl Model for Stats {
    ghost use Rattle.layout_stats_meaning.specs.Statistics.{StatsOf};

    ghost Value = { StatsOf };

    ghost view = { λ s. record { triples = s.triples; terms = s.terms; direct = s.direct; reverse = s.reverse } };
}
