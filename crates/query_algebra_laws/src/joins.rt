//! Laws of joins.

ghost use Rattle.std.specs.Prelude.{Bool, true, List, ◌++◌, map};
ghost use Rattle.std.specs.List.{filter, AllByRecursion};
ghost use Rattle.bags.specs.Bag.{SameBag};
ghost use Rattle.query_eval_meaning.specs.Mapping.{Mapping};
ghost use Rattle.query_eval_meaning.specs.Eval.{join, left_join};
ghost use Rattle.query_eval_meaning.specs.Variables.{IsNarrow};
ghost use Rattle.query_eval_meaning.specs.Matches.{Match, matches_of, unmatched, IsCovered};

/// A join depends on its sides as bags.
// For each step of the compiler that joins the rows of two others.
pub fn joins_respect_bags()
    ensures { (ls ms rs ns : List Mapping) → SameBag ls ms → SameBag rs ns → SameBag (join ls rs) (join ms ns) }
{}

/// So does a left join.
// For the step of an optional part.
pub fn left_joins_respect_bags()
    ensures { (passes : Mapping → Bool) (ls ms rs ns : List Mapping) → SameBag ls ms → SameBag rs ns → SameBag (left_join passes ls rs) (left_join passes ms ns) }
{}

/// So does a union.
// For the step of a union.
pub fn unions_respect_bags()
    ensures { (ls ms rs ns : List Mapping) → SameBag ls ms → SameBag rs ns → SameBag (ls ++ rs) (ms ++ ns) }
{}

/// So does a filter.
// For the step of a filter.
pub fn filters_respect_bags()
    ensures { (passes : Mapping → Bool) (ls ms : List Mapping) → SameBag ls ms → SameBag (filter passes ls) (filter passes ms) }
{}

/// The sides of a join may change places. The premise holds of all solutions (`solutions_stay_over`).
// For stars that are planned in another order than the text's.
pub fn joins_turn()
    ensures { (ls rs : List Mapping) → AllByRecursion IsNarrow ls → AllByRecursion IsNarrow rs → SameBag (join ls rs) (join rs ls) }
{}

/// Three sides may be joined from either end.
// For stars that are merged, and joined with the rest of their leaf.
pub fn joins_regroup()
    ensures { (xs ys zs : List Mapping) → SameBag (join (join xs ys) zs) (join xs (join ys zs)) }
{}

/// An optional part beside a join moves into the side that binds what it shares.
// For an optional arm that is merged into one star of a leaf; the premise holds as the arm shares the entity alone.
pub fn optional_moves_in()
    ensures { (xs ys rs : List Mapping) → AllByRecursion (λ x. AllByRecursion (λ y. AllByRecursion (IsCovered x y) rs) ys) xs →
        SameBag (left_join (λ m. true) (join xs ys) rs) (join xs (left_join (λ m. true) ys rs)) }
{}

/// A left join under a condition is its matches, and the mappings of the left side from which none comes.
/// The premise holds of all solutions (`solutions_stay_over`).
// For the two steps of an optional part with a filter.
pub fn left_joins_split()
    ensures { (passes : Mapping → Bool) (ls rs : List Mapping) → AllByRecursion IsNarrow ls →
        SameBag (left_join passes ls rs) (map (λ (q : Match). q.merged) (matches_of passes ls rs) ++ filter (unmatched (matches_of passes ls rs)) ls) }
{}
