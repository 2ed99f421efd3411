//! Columns: their count, the count of hashes, and the known columns of some IRIs.

ghost use Rattle.std.specs.Prelude.{◌≡◌, ◌≢◌, ℕ, List, ◌≤◌, ◌<◌, ◌∷◌, ◌++◌, [], length, map, All, IfOk, IfErr, OnOk, OnErr, None, Some, nat_eq};
ghost use Rattle.std.specs.List.{IsDistinct};
ghost use Rattle.indexmap.specs.IndexMap.{get};
ghost use Rattle.layout_meaning.specs.Columns.{candidates_of};
ghost use Rattle.layout_meaning.specs.Side.{first_of};
ghost use Rattle.pred_columns.specs.Refusal.{refusal_of, fault_from, known_of, same_text};

use crate::hashes::hashed;
use indexmap::IndexMap;
use rdf_meaning::Text;
use smallvec::SmallVec;
use std::alloc::{AllocError, Global};
use std::marker::Model;

/// The most columns of a side.
const MOST_COLUMNS: u32 = 32;

/// The most hashes of a layout.
const MOST_HASHES: u32 = 4;

/// An IRI and its column, counted from 0.
#[derive(Debug, Drop)]
pub struct ColourPair {
    pub iri: Text,
    pub column: u32,
}

/// Why columns can't be made; `at` counts the pairs from 0.
#[derive(Clone, Copy, Debug, PartialEq, Eq)]
pub enum ColumnRefusal {
    /// The count of columns isn't 1 to 32.
    BadCount,
    /// The count of hashes isn't 1 to 4.
    BadHashes,
    /// The IRI of this pair came before.
    Repeated { at: usize },
    /// The column of this pair isn't below the count of columns.
    OutOfRange { at: usize },
    NoMemory,
}

impl From<AllocError> for ColumnRefusal {
    ghost use Rattle.std.specs.Prelude.{◌≡◌};
    ghost use Rattle.pred_columns.specs.declared.columns.ColumnRefusal.TheVariants.{NoMemory};

    ghost from_gives = { λ _ e. e ≡ NoMemory };

    fn from(_error: AllocError) -> ColumnRefusal {
        ColumnRefusal::NoMemory
    }
}

/// A count of columns, a count of hashes, and the known columns of some IRIs.
#[derive(Drop)]
pub struct Columns {
    count: u32,
    hashes: u8,
    known: IndexMap<Text, u32>,
    alloc: Global,
}

impl Model for Columns {
    ghost use Rattle.layout_meaning.specs.Columns.{ColumnsOf};
    ghost use Rattle.pred_columns.specs.Sound.{AreInRange};

    ghost Value = { ColumnsOf };

    ghost view = { λ c. record { count = c.count; hashes = c.hashes; known = c.known.entries } };

    ghost invariant = { λ c. AreInRange c.count c.hashes c.known.entries };
}

impl Columns {
    /// Columns with these known ones. They are refused where the count isn't 1 to 32, else where the hashes
    /// aren't 1 to 4, else at the first pair whose IRI came before or whose column isn't below the count.
    pub fn new(
        alloc: Global,
        k: u32,
        hashes: u32,
        known: &[ColourPair],
    ) -> Result<Columns, ColumnRefusal>
        ensures made { IfOk result (λ columns. columns ≡ record { count = k; hashes = hashes; known = map known_of known.now }) }
        ensures good { OnOk result (refusal_of k hashes known.now ≡ None) }
        ensures refused { IfErr result (λ e. e ≢ ColumnRefusal.NoMemory → refusal_of k hashes known.now ≡ Some e) }
    {
        if k < 1 || k > MOST_COLUMNS {
            return Err(ColumnRefusal::BadCount);
        }
        if hashes < 1 || hashes > MOST_HASHES {
            return Err(ColumnRefusal::BadHashes);
        }
        let known = known_columns(alloc, k, known)?;
        Ok(Columns {
            count: k,
            hashes: hashes as u8,
            known,
            alloc,
        })
    }

    /// How many columns there are. Each IRI has candidates, and all of them are among these columns.
    pub fn count(&self) -> u32
        ensures value { result ≡ self.now.count }
        ensures low { 1 ≤ result }
        ensures high { result ≤ 32 }
        ensures some { (iri : List ℕ) → 0 < length (candidates_of self.now iri) }
        ensures first { (iri : List ℕ) → first_of (candidates_of self.now iri) < self.now.count }
        ensures within { (iri : List ℕ) → All (λ c. c < self.now.count) (candidates_of self.now iri) }
    {
        self.count
    }

    /// The columns in which a predicate with this IRI may stand, the first choice first. It takes no memory.
    pub fn candidates(&self, iri: &Text) -> SmallVec<u32, 4>
        ensures value { result.items ≡ candidates_of self.now iri.now }
        ensures some { 0 < length result.items }
        ensures distinct { IsDistinct nat_eq result.items }
        ensures below { All (λ c. c < self.now.count) result.items }
    {
        match self.known.get(iri) {
            Some(column) => one(self.alloc, *column),
            None => hashed(self.alloc, self.count, self.hashes, iri.bytes()),
        }
    }

    /// Equal columns.
    pub fn copy(&self, alloc: Global) -> Result<Columns, AllocError>
        ensures { IfOk result (λ columns. columns ≡ self.now) }
    {
        Ok(Columns {
            count: self.count,
            hashes: self.hashes,
            known: copied(alloc, &self.known)?,
            alloc,
        })
    }
}

fn one(alloc: Global, column: u32) -> SmallVec<u32, 4>
    ensures { result.items ≡ column ∷ [] }
{
    let mut columns = SmallVec::new(alloc);
    columns.push_reserved(column);
    columns
}

/// Puts an IRI last that isn't there.
fn add_new(
    known: &mut IndexMap<Text, u32>,
    alloc: Global,
    iri: &Text,
    column: u32,
) -> Result<(), AllocError>
    requires { get same_text known.old iri.now ≡ None }
    ensures { OnOk result (known.new.entries ≡ known.old.entries ++ (iri.now, column) ∷ []) }
{
    let Ok(_old) = known.insert(iri.copy(alloc)?, column) else {
        return Err(AllocError);
    };
    Ok(())
}

fn known_columns(
    alloc: Global,
    k: u32,
    pairs: &[ColourPair],
) -> Result<IndexMap<Text, u32>, ColumnRefusal>
    ensures made { IfOk result (λ known. known.entries ≡ map known_of pairs.now) }
    ensures below { IfOk result (λ known. All (λ p. p.1 < k) known.entries) }
    ensures good { OnOk result (fault_from k [] pairs.now 0 ≡ None) }
    ensures refused { IfErr result (λ e. e ≢ ColumnRefusal.NoMemory → fault_from k [] pairs.now 0 ≡ Some e) }
{
    let mut known = IndexMap::new(alloc);
    for at in 0..pairs.len() {
        let pair = &pairs[at];
        if known.contains_key(&pair.iri) {
            return Err(ColumnRefusal::Repeated { at });
        }
        if pair.column >= k {
            return Err(ColumnRefusal::OutOfRange { at });
        }
        add_new(&mut known, alloc, &pair.iri, pair.column)?;
    }
    Ok(known)
}

/// An equal map, pair by pair: a clone of the map would hash each key again in a second pass.
fn copied(alloc: Global, known: &IndexMap<Text, u32>) -> Result<IndexMap<Text, u32>, AllocError>
    ensures { IfOk result (λ copy. copy.entries ≡ known.now.entries) }
{
    let mut copy = IndexMap::new(alloc);
    for at in 0..known.len() {
        let (iri, column) = known.get_index(at).unwrap();
        add_new(&mut copy, alloc, iri, *column)?;
    }
    Ok(copy)
}

// Takes what pieces may read at the same time.
fn share<T: Sync>(_value: &T) {}

/// The columns may be read by several threads at the same time.
pub fn share_columns(columns: &Columns) {
    share(columns)
}
