//! The numbered steps of a star are an out that stands for it. The function without a body is the law.
#![tactic(auto)]

ghost use Rattle.std.specs.Prelude.{◌≡◌, true, pos, List, [], ◌∷◌};
ghost use Rattle.std.specs.List.{list_all, AllByRecursion};
ghost use Rattle.table_meaning.specs.Ints.{is_wide_int};
ghost use Rattle.layout_meaning.specs.Facts.{FactsOf, IdOf};
ghost use Rattle.query_meaning.specs.declared.tree.Tree.TheVariants as trees;
ghost use Rattle.query_merging_meaning.specs.Accesses.{star_accesses};
ghost use Rattle.query_plan_meaning.specs.declared.star.Star.{Star};
ghost use Rattle.query_plan_meaning.specs.Plans.{leaf_fits};
ghost use Rattle.query_plan_meaning.specs.Stars.{star_in_width};
ghost use Rattle.query_merging_meaning.specs.Merging.{is_plain_where_several};
ghost use Rattle.sql_gen_meaning.specs.Compilable.{AreColumns, has_few_arms, star_is_told};
ghost use Rattle.sql_gen_out_laws.specs.Outs.{StandsForNode};
ghost use Rattle.sql_gen_star_out_laws.specs.StarOuts.{star_out};

/// In a leaf that may be compiled, the out of each star stands for the leaf of that star alone, and reads a primary table as
/// often as the star counts accesses: whether it has one arm or several, required and optional, a predicate that is a variable,
/// or two lists of arms of which one must fit.
// For the leaves of a plan.
pub fn star_outs_stand()
    ensures { (facts : FactsOf) (ids : List IdOf) → AreColumns facts.direct → AreColumns facts.reverse → list_all (λ (i : IdOf). is_wide_int (pos i.id)) ids ≡ true →
        (leaf : List Star) → leaf_fits leaf ≡ true → list_all star_in_width leaf ≡ true → list_all (star_is_told ids) leaf ≡ true → list_all (is_plain_where_several facts.spilled) leaf ≡ true → list_all has_few_arms leaf ≡ true →
        AllByRecursion (λ (star : Star). StandsForNode facts ids (trees.Leaf (star ∷ [])) (star_accesses facts star) (star_out facts ids star)) leaf }
{}
