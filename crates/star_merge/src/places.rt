//! The first star of a leaf that may take another's arms.

ghost use Rattle.std.specs.Prelude.{◌≡◌, ◌<◌, length, MatchOption};
ghost use Rattle.query_plan_meaning.specs.declared.star.Star.{Star};
ghost use Rattle.query_merging_meaning.specs.Merging.{are_one, takes_arms_of};
ghost use Rattle.star_merge.specs.Places.{first_place};

use crate::plain::{are_one, takes_arms_of};
use pred_columns::Spilled;
use query_plan_meaning::Star;

/// The place of the first star with which the new one is one.
pub(crate) fn place_of_one(spilled: &Spilled, stars: &[Star], new: &Star) -> Option<usize>
    ensures place { result ≡ first_place (λ (s : Star). are_one spilled.now s new.now) stars.now }
    ensures within { MatchOption result (Unit {0}) (λ at. at < length stars.now) }
{
    match stars {
        [] => None,
        [star, rest @ ..] => {
            if are_one(spilled, star, new) {
                return Some(0);
            }
            let at = place_of_one(spilled, rest, new)?;
            Some(at + 1)
        }
    }
}

/// The place of the first star that takes an optional arm of the lone one.
pub(crate) fn place_that_takes(spilled: &Spilled, stars: &[Star], lone: &Star) -> Option<usize>
    ensures place { result ≡ first_place (λ (s : Star). takes_arms_of spilled.now s lone.now) stars.now }
    ensures within { MatchOption result (Unit {0}) (λ at. at < length stars.now) }
{
    match stars {
        [] => None,
        [star, rest @ ..] => {
            if takes_arms_of(spilled, star, lone) {
                return Some(0);
            }
            let at = place_that_takes(spilled, rest, lone)?;
            Some(at + 1)
        }
    }
}
