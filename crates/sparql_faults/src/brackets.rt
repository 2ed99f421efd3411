//! The open brackets of a filter.

ghost use Rattle.std.specs.Prelude.{◌≡◌, ◌∷◌, [], OnOk, nat_lt, IsTrue, ◌↔◌};
ghost use Rattle.sparql_query_meaning.specs.Limits.{open_now};
ghost use Rattle.sparql_faults.specs.Depth.{without_last};

use std::alloc::{AllocError, Global};
use std::collections::VecDeque;
use std::marker::Model;

/// The open brackets of a filter, the last one first, each with whether a `!` stands before it.
#[derive(Drop)]
pub(crate) struct Brackets {
    open: VecDeque<bool>,
}

impl Model for Brackets {
    ghost use Rattle.std.specs.Prelude.{List, Bool};

    ghost Value = { List Bool };

    ghost view = { λ b. b.open.items };
}

impl Brackets {
    pub(crate) fn new(alloc: Global) -> Brackets
        ensures { result ≡ [] }
    {
        Brackets {
            open: VecDeque::new(alloc),
        }
    }

    pub(crate) fn is_empty(&self) -> bool
        ensures { IsTrue result ↔ (self.now ≡ []) }
    {
        self.open.is_empty()
    }

    pub(crate) fn open(&mut self, negated: bool) -> Result<(), AllocError>
        ensures { OnOk result (self.new ≡ negated ∷ self.old) }
    {
        self.open.push_front(negated)?;
        Ok(())
    }

    /// Closes the last bracket, where one is open.
    pub(crate) fn close(&mut self)
        ensures { self.new ≡ without_last self.old }
    {
        self.open.pop_front();
    }

    /// Whether more brackets and `!` are open than this, with one more `!` where one waits.
    pub(crate) fn is_deeper(&self, waits: bool, most: usize) -> bool
        ensures { result ≡ nat_lt most (open_now self.now waits) }
    {
        let mut left = most;
        for at in 0..self.open.len() {
            let taken = 1 + self.open[at] as usize;
            if taken > left {
                return true;
            }
            left -= taken;
        }
        waits as usize > left
    }
}
