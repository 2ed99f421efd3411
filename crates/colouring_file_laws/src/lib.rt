//! Laws of colouring files: the grammar and the readings that are computed agree in both directions, so a
//! file has one reading or one refusal; and known columns that fit are taken.
#![tactic(auto)]

ghost use Rattle.std.specs.Prelude.{◌≡◌, ◌≤◌, ◌<◌, ℕ, List, None};
ghost use Rattle.std.specs.List.{AllByRecursion, IsDistinct};
ghost use Rattle.pred_columns.specs.declared.columns.ColourPair.{ColourPair};
ghost use Rattle.pred_columns.specs.Refusal.{refusal_of};
ghost use Rattle.colouring_file_laws.specs.Pairs.{same_iri};
ghost use Rattle.colouring_file_laws.specs.ReadingLaws.{ReadingsAreComputed, RefusalsAreComputed, OneReading, OneRefusal, NeverBoth, OneAnswer};

/// What the lines of a text read as in the grammar is what is computed of them, and so is the first line
/// that is refused. So a text reads as one list of colours at most, it has one first refused line at most,
/// and none where it reads; and whatever the reader may answer by its contract for a text that reads as
/// some colours is these colours, or want of memory.
pub fn colourings_are_read_once()
    ensures readings { ReadingsAreComputed }
    ensures refusals { RefusalsAreComputed }
    ensures one_reading { OneReading }
    ensures one_refusal { OneRefusal }
    ensures never_both { NeverBoth }
    ensures one_answer { OneAnswer }
{}

/// Known columns below the count, none of whose IRIs stands twice, are not refused.
pub fn fit_columns_are_taken()
    ensures { (k hashes : ℕ) (pairs : List ColourPair) → 1 ≤ k → k ≤ 32 → 1 ≤ hashes → hashes ≤ 4 → AllByRecursion (λ p. p.column < k) pairs → IsDistinct same_iri pairs → refusal_of k hashes pairs ≡ None }
{}
