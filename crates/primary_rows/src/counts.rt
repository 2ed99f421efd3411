//! How often each predicate stands behind the first row of an entity.

ghost use Rattle.std.specs.Prelude.{◌≡◌, ◌+◌, ◌-◌, ◌<◌, ◌==◌, if◌then◌else◌, ℕ, nat_lt, IsSome, [], OnOk, OnErr, Some};
ghost use Rattle.std.specs.Ordering.{nat_cmp};
ghost use Rattle.std.specs.BTreeMap.{get, is_at};
ghost use Rattle.std.specs.Map.{set_value};
ghost use Rattle.layout_meaning.specs.Sound.{one_if};
ghost use Rattle.layout_meaning.specs.Rows.{IsCountOf};
ghost use Rattle.primary_rows.specs.Counted.{count_in};

use std::alloc::{AllocError, Global};
use std::collections::BTreeMap;
use std::marker::Model;

/// Counts of predicates, which contracts see as pairs: no count that is 0 is kept.
#[derive(Drop)]
pub(crate) struct SpillCounts {
    counts: BTreeMap<u32, u64>,
}

impl Model for SpillCounts {
    ghost use Rattle.std.specs.Prelude.{ℕ, List};
    ghost use Rattle.primary_rows.specs.Counted.{ArePositive};

    ghost Value = { List (ℕ × ℕ) };

    ghost view = { λ s. s.counts.entries };

    ghost invariant = { λ s. ArePositive s.counts.entries };
}

impl SpillCounts {
    pub(crate) fn new(alloc: Global) -> SpillCounts
        ensures { result ≡ [] }
    {
        SpillCounts {
            counts: BTreeMap::new(alloc),
        }
    }

    pub(crate) fn has(&self, pred: u32) -> bool
        ensures { result ≡ nat_lt 0 (count_in self.now pred) }
    {
        self.counts.contains_key(&pred)
    }

    /// How many predicates have a count.
    pub(crate) fn len(&self) -> u64
        ensures { IsCountOf (λ p. nat_lt 0 (count_in self.now p)) result }
    {
        self.counts.len() as u64
    }

    fn count(&self, pred: u32) -> u64
        ensures { result ≡ count_in self.now pred }
    {
        match self.counts.get(&pred) {
            Some(count) => *count,
            None => 0,
        }
    }

    pub(crate) fn raise(&mut self, pred: u32) -> Result<(), AllocError>
        ensures ok { OnOk result ((q : ℕ) → count_in self.new q ≡ count_in self.old q + one_if (pred == q)) }
        ensures err { OnErr result ((q : ℕ) → count_in self.new q ≡ count_in self.old q) }
    {
        let count = self.count(pred);
        let Some(more) = count.checked_add(1) else {
            return Err(AllocError);
        };
        let Ok(_old) = self.counts.insert(pred, more) else {
            return Err(AllocError);
        };
        Ok(())
    }

    /// Raises the count of a predicate by a number that isn't 0.
    fn raise_by(&mut self, pred: u32, by: u64) -> Result<(), AllocError>
        requires { 0 < by }
        ensures { OnOk result ((q : ℕ) → count_in self.new q ≡ count_in self.old q + (if pred == q then by else 0)) }
    {
        let count = self.count(pred);
        let Some(more) = count.checked_add(by) else {
            return Err(AllocError);
        };
        let Ok(_old) = self.counts.insert(pred, more) else {
            return Err(AllocError);
        };
        Ok(())
    }

    /// Raises each count by another one.
    pub(crate) fn add(&mut self, later: &SpillCounts) -> Result<(), AllocError>
        ensures { OnOk result ((q : ℕ) → count_in self.new q ≡ count_in self.old q + count_in later.now q) }
    {
        for (pred, count) in &later.counts {
            self.raise_by(*pred, *count)?;
        }
        Ok(())
    }

    pub(crate) fn lower(&mut self, pred: u32)
        ensures { (q : ℕ) → count_in self.new q ≡ count_in self.old q - one_if (pred == q) }
    {
        let count = self.count(pred);
        if count > 1 {
            set(&mut self.counts, pred, count - 1);
        } else {
            self.counts.remove(&pred);
        }
    }
}

/// Sets a count that is there.
#[tactic(auto, using(std::proofs::lemmas::Map::Steps::set_value_same))]
fn set(counts: &mut BTreeMap<u32, u64>, pred: u32, count: u64)
    requires { IsSome (get nat_cmp counts.old pred) }
    ensures { counts.new.entries ≡ set_value (is_at (nat_cmp pred)) counts.old.entries count }
{
    *counts.get_mut(&pred).unwrap() = count;
}
