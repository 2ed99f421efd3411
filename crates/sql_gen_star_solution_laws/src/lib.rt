//! Laws of the solutions of a star: every choice of values, in numbers, is a solution of the star, on either side.
#![tactic(auto)]

ghost use Rattle.std.specs.Prelude.{◌≡◌, true, List, [], ◌∷◌, map};
ghost use Rattle.std.specs.List.{flat_map, AllByRecursion, IsDistinct};
ghost use Rattle.bags.specs.Bag.{SameBag};
ghost use Rattle.rdf_meaning.specs.Terms.{RdfTriple, same_triple};
ghost use Rattle.rdf_meaning.specs.declared.side.SideName.{SideName};
ghost use Rattle.query_meaning.specs.declared.pattern.Slot.{Slot};
ghost use Rattle.query_eval_meaning.specs.Width.{slot_in_width};
ghost use Rattle.query_plan_meaning.specs.declared.star.Arm.{Arm};
ghost use Rattle.query_plan_meaning.specs.Stars.{both_sols, arm_in_width};
ghost use Rattle.layout_meaning.specs.Columns.{ColumnsOf};
ghost use Rattle.layout_standing_meaning.specs.Dictionary.{Entry, AreEntries, HasIds, id_of};
ghost use Rattle.layout_standing_meaning.specs.Contents.{SideContents, said};
ghost use Rattle.sql_gen_star_meaning.specs.Asked.{asked_slot};
ghost use Rattle.sql_gen_star_meaning.specs.Openings.{item_numbers, pair_numbers};
ghost use Rattle.sql_gen_star_solution_laws.specs.StarArms.{IsArm, required_vars, entity_vars, first_arm, other_arms, AllFresh, pair_entity, pair_predicate, pair_value, numbers_of, side_item};

/// Where a side says the triples, every choice with an item's value for the first arm is a solution of the star in
/// numbers, and each solution is chosen as often.
pub fn choices_are_solutions()
    ensures { (es : List Entry) → AreEntries es → (side : SideName) (s : SideContents) (g : List RdfTriple) → SameBag (said s) (map (side_item side (id_of es)) g) → AllByRecursion (HasIds es) g →
        (columns : ColumnsOf) (x : Slot) → slot_in_width x ≡ true → (a : Arm) (required optional : List Arm) → AllByRecursion IsArm (a ∷ required) → AllByRecursion IsArm optional →
        AllFresh (id_of es) (required_vars (id_of es) (entity_vars (id_of es) x) (a ∷ required)) optional →
        SameBag (flat_map (item_numbers s (asked_slot (id_of es) [] x) (first_arm columns (id_of es) x a) (other_arms columns (id_of es) x a required optional)) (said s)) (map (numbers_of (id_of es)) (both_sols g x side (a ∷ required) optional)) }
{}

/// With a variable predicate each item that agrees is a solution, in numbers.
pub fn items_are_solutions()
    ensures { (es : List Entry) → AreEntries es → (side : SideName) (s : SideContents) (g : List RdfTriple) → IsDistinct same_triple g → SameBag (said s) (map (side_item side (id_of es)) g) → AllByRecursion (HasIds es) g →
        (x : Slot) → slot_in_width x ≡ true → (a : Arm) → arm_in_width a ≡ true →
        SameBag (flat_map (pair_numbers (pair_entity (id_of es) x) (pair_predicate (id_of es) x a) (pair_value (id_of es) x a)) (said s)) (map (numbers_of (id_of es)) (both_sols g x side (a ∷ []) [])) }
{}
