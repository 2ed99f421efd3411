//! The columns of both sides, and how the known ones are found.

ghost use Rattle.std.specs.Prelude.{◌≡◌, ◌≢◌, IfOk, IfErr, OnOk, None, Some};
ghost use Rattle.layout_choice.specs.Chosen.{choice_made, refusal_chosen, colours_bulk};

use crate::pairs::known_pairs;
use colouring_file::ColourLine;
use pred_columns::{ColumnRefusal, Columns};
use rdf_meaning::SideName;
use std::alloc::Global;
use std::marker::Model;

/// How the known columns of predicates are found.
#[derive(Debug, Drop)]
pub enum ColourWay {
    /// The predicates of a bulk are coloured, on each side for itself.
    Greedy,
    /// No column is known: each predicate has the columns of its hashes.
    HashOnly,
    /// These columns are known, each on its side.
    Given(Vec<ColourLine>),
}

/// The columns of both sides, and whether those of a bulk's predicates are coloured.
#[derive(Drop)]
pub struct LayoutChoice {
    direct: Columns,
    reverse: Columns,
    hashes: u32,
    greedy: bool,
}

impl Model for LayoutChoice {
    ghost use Rattle.std.specs.Prelude.{◌≡◌};
    ghost use Rattle.layout_columns_meaning.specs.Layouts.{ChoiceOf};

    ghost Value = { ChoiceOf };

    ghost view = { λ c. record { direct = c.direct; reverse = c.reverse; greedy = c.greedy } };

    ghost invariant = { λ c. (c.hashes ≡ c.direct.hashes) × (c.hashes ≡ c.reverse.hashes) };
}

fn colours_bulk(way: &ColourWay) -> bool
    ensures { result ≡ colours_bulk way.now }
{
    match way {
        ColourWay::Greedy => true,
        ColourWay::HashOnly | ColourWay::Given(_) => false,
    }
}

impl LayoutChoice {
    /// A layout with this many direct and reverse columns, 1 to 32, and this many hashes, 1 to 4, whose known
    /// columns are found in this way. It is refused where the columns of the direct side are, else where
    /// those of the reverse side are.
    pub fn new(
        alloc: Global,
        direct: u32,
        reverse: u32,
        hashes: u32,
        way: ColourWay,
    ) -> Result<LayoutChoice, ColumnRefusal>
        ensures made { IfOk result (λ choice. choice ≡ choice_made direct reverse hashes way) }
        ensures good { OnOk result (refusal_chosen direct reverse hashes way ≡ None) }
        ensures refused { IfErr result (λ e. e ≢ ColumnRefusal.NoMemory → refusal_chosen direct reverse hashes way ≡ Some e) }
    {
        let direct_pairs = known_pairs(alloc, &way, SideName::Direct)?;
        let reverse_pairs = known_pairs(alloc, &way, SideName::Reverse)?;
        let direct = Columns::new(alloc, direct, hashes, direct_pairs.as_slice())?;
        let reverse = Columns::new(alloc, reverse, hashes, reverse_pairs.as_slice())?;
        Ok(LayoutChoice {
            direct,
            reverse,
            hashes,
            greedy: colours_bulk(&way),
        })
    }

    /// The columns of the direct side, as far as they are known before a bulk.
    pub fn direct(&self) -> &Columns
        ensures { result.now ≡ self.now.direct }
    {
        &self.direct
    }

    /// The columns of the reverse side, as far as they are known before a bulk.
    pub fn reverse(&self) -> &Columns
        ensures { result.now ≡ self.now.reverse }
    {
        &self.reverse
    }

    /// How many hashes each side has.
    pub fn hashes(&self) -> u32
        ensures direct { result ≡ self.now.direct.hashes }
        ensures reverse { result ≡ self.now.reverse.hashes }
    {
        self.hashes
    }

    /// Whether the columns of a bulk's predicates are coloured.
    pub fn is_greedy(&self) -> bool
        ensures { result ≡ self.now.greedy }
    {
        self.greedy
    }
}
