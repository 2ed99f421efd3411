//! Laws of stars that fit: what the laws of their steps ask holds of them.
#![tactic(auto)]

ghost use Rattle.std.specs.Prelude.{◌≡◌, Bool, true, false, List, [], ◌∷◌, ◌++◌, length, nat_le};
ghost use Rattle.std.specs.List.{list_all, AllByRecursion, IsDistinct};
ghost use Rattle.rdf_meaning.specs.Terms.{RdfTriple, same_triple};
ghost use Rattle.rdf_meaning.specs.declared.side.SideName.{SideName};
ghost use Rattle.table_meaning.specs.Tables.{NamedTable};
ghost use Rattle.layout_meaning.specs.Facts.{FactsOf, IdOf};
ghost use Rattle.layout_standing_meaning.specs.Dictionary.{id_of};
ghost use Rattle.layout_standing_meaning.specs.Schemas.{LayoutOf};
ghost use Rattle.layout_standing_meaning.specs.Standing.{AreTriples};
ghost use Rattle.layout_facts_meaning.specs.Facts.{HaveFacts};
ghost use Rattle.query_meaning.specs.declared.pattern.Slot.{Slot};
ghost use Rattle.query_eval_meaning.specs.Width.{slot_in_width};
ghost use Rattle.query_plan_meaning.specs.declared.star.Arm.{Arm};
ghost use Rattle.query_plan_meaning.specs.declared.star.Star.{Star};
ghost use Rattle.query_plan_meaning.specs.declared.star.StarBody.{StarBody};
ghost use Rattle.query_plan_meaning.specs.declared.star.StarBody.TheVariants.{Both, Either};
ghost use Rattle.query_plan_meaning.specs.Stars.{arms_of, arm_in_width};
ghost use Rattle.query_plan_meaning.specs.Plans.{is_constant, leaf_fits, constant_where_several};
ghost use Rattle.query_merging_meaning.specs.Merging.{is_plain_where_several};
ghost use Rattle.sql_gen_step_laws.specs.Carried.{Ids};
ghost use Rattle.sql_gen_star_meaning.specs.Openings.{AreReadable};
ghost use Rattle.sql_gen_star_solution_laws.specs.StarArms.{required_vars, entity_vars, first_arm, other_arms, AllFresh};
ghost use Rattle.sql_gen_star_laws.specs.StarSteps.{ArmsOf, IsStar};
ghost use Rattle.sql_gen_star_fit_laws.specs.Fitting.{HasFreshValues, reads_first, names_predicate, columns_of_side, contents_of_side};

/// In a leaf that fits, each optional value is a variable that isn't bound before.
pub fn values_are_fresh()
    ensures { (ids : Ids) (leaf : List Star) → leaf_fits leaf ≡ true → AllByRecursion (HasFreshValues ids) leaf }
{}

/// Arms with constant predicates, variables below the width and fresh optional values are a star.
pub fn arms_are_stars()
    ensures { (ids : Ids) (x : Slot) (arms : ArmsOf) → slot_in_width x ≡ true → list_all arm_in_width ((arms.first ∷ arms.required) ++ arms.optional) ≡ true → list_all (λ (a : Arm). is_constant a.pred) ((arms.first ∷ arms.required) ++ arms.optional) ≡ true →
        AllFresh ids (required_vars ids (entity_vars ids x) (arms.first ∷ arms.required)) arms.optional → IsStar ids x arms }
{}

/// Several arms of a star that fits have constant predicates.
pub fn several_are_constant()
    ensures { (body : StarBody) → constant_where_several body ≡ true → nat_le (length (arms_of body)) 1 ≡ false → list_all (λ (a : Arm). is_constant a.pred) (arms_of body) ≡ true }
{}

/// Triples that tables may stand for are distinct.
// For a star whose predicate is a variable.
pub fn triples_are_distinct()
    ensures { (g : List RdfTriple) → AreTriples g → IsDistinct same_triple g }
{}

/// A star whose arms are plain where there are several can be read over all tables with the same facts: several arms from
/// the rows of number 0, and one from all rows. For an Either star one such choice serves both lists, as it has several arms.
pub fn plain_stars_are_readable()
    ensures both { (layout : LayoutOf) (tables : List NamedTable) (g : List RdfTriple) (ids : List IdOf) (facts : FactsOf) (h : HaveFacts layout tables g ids facts) (side : SideName) (x : Slot) (a : Arm) (required optional : List Arm) →
        is_plain_where_several facts.spilled (record { entity = x; side = side; body = Both (a ∷ required) optional }) ≡ true → list_all (names_predicate ids) (arms_of (Both (a ∷ required) optional)) ≡ true →
        AreReadable (contents_of_side side h.contents) (reads_first (Both (a ∷ required) optional)) (first_arm (columns_of_side side layout) (id_of h.contents.terms) x a)
        (other_arms (columns_of_side side layout) (id_of h.contents.terms) x a required optional) }
    ensures either { (layout : LayoutOf) (tables : List NamedTable) (g : List RdfTriple) (ids : List IdOf) (facts : FactsOf) (h : HaveFacts layout tables g ids facts) (side : SideName) (x : Slot) (a : Arm) (left : List Arm) (b : Arm) (right : List Arm) →
        is_plain_where_several facts.spilled (record { entity = x; side = side; body = Either (a ∷ left) (b ∷ right) }) ≡ true → list_all (names_predicate ids) (arms_of (Either (a ∷ left) (b ∷ right))) ≡ true →
        AreReadable (contents_of_side side h.contents) (reads_first (Either (a ∷ left) (b ∷ right))) (first_arm (columns_of_side side layout) (id_of h.contents.terms) x a) (other_arms (columns_of_side side layout) (id_of h.contents.terms) x a left [])
        × AreReadable (contents_of_side side h.contents) (reads_first (Either (a ∷ left) (b ∷ right))) (first_arm (columns_of_side side layout) (id_of h.contents.terms) x b) (other_arms (columns_of_side side layout) (id_of h.contents.terms) x b right []) }
{}
