//! The law of a star's steps: over tables that stand for triples they carry the star's solutions.
#![tactic(auto)]

ghost use Rattle.std.specs.Prelude.{◌≡◌, ℕ, ◌+◌, ◌^◌, ◌<◌, Bool, true, false, List, [], ◌∷◌, map, length};
ghost use Rattle.std.specs.List.{AllByRecursion, IsDistinct};
ghost use Rattle.std.specs.Str.{bytes_eq};
ghost use Rattle.bags.specs.Bag.{SameBag};
ghost use Rattle.rdf_meaning.specs.Terms.{RdfTriple, same_triple};
ghost use Rattle.rdf_meaning.specs.declared.side.SideName.{SideName};
ghost use Rattle.query_meaning.specs.declared.pattern.Slot.{Slot};
ghost use Rattle.query_plan_meaning.specs.declared.star.Arm.{Arm};
ghost use Rattle.query_plan_meaning.specs.Stars.{both_sols, arm_in_width};
ghost use Rattle.query_eval_meaning.specs.Width.{slot_in_width};
ghost use Rattle.sql_rows_meaning.specs.Tables.{Relations};
ghost use Rattle.sql_rows_meaning.specs.Rows.{after_steps};
ghost use Rattle.layout_meaning.specs.Columns.{ColumnsOf};
ghost use Rattle.layout_standing_meaning.specs.Dictionary.{Entry, AreEntries, HasIds, id_of, has_term};
ghost use Rattle.layout_standing_meaning.specs.Contents.{SideContents, Contents, said};
ghost use Rattle.layout_standing_meaning.specs.Standing.{SideStands, Says};
ghost use Rattle.layout_standing_meaning.specs.Schemas.{LayoutOf};
ghost use Rattle.rdf_meaning.specs.declared.side.SideName.TheVariants.{Direct, Reverse};
ghost use Rattle.sql_gen_step_laws.specs.Carried.{Name, Carries};
ghost use Rattle.sql_gen_star_meaning.specs.SideTables.{HoldsSide};
ghost use Rattle.sql_gen_star_meaning.specs.Openings.{AreReadable};
ghost use Rattle.sql_gen_star_solution_laws.specs.StarArms.{first_arm, other_arms, side_item};
ghost use Rattle.sql_gen_star_laws.specs.StarSteps.{ArmsOf, star_arms, star_steps, star_last, star_vars, IsStar, AreWithin, IsVariable, pair_steps, pair_last, pair_all_vars};

/// Where a side stands and says the triples, the last step of a star carries the star's solutions: on either side, under
/// any names of the steps, with several arms or one, required and optional.
// For a leaf of stars.
pub fn stars_stand()
    ensures { (columns : ColumnsOf) (es : List Entry) (s : SideContents) → AreEntries es → SideStands columns es s → (side : SideName) (g : List RdfTriple) → SameBag (said s) (map (side_item side (id_of es)) g) → AllByRecursion (HasIds es) g →
        (x : Slot) (arms : ArmsOf) → IsStar (id_of es) x arms → (first : Bool) → AreReadable s first (first_arm columns (id_of es) x arms.first) (other_arms columns (id_of es) x arms.first arms.required arms.optional) →
        columns.count < 2 ^ 64 → AreWithin columns → (name : ℕ → Name) (primary lists : Name) (n : ℕ) (relations : Relations) → HoldsSide columns.count s (relations primary) (relations lists) →
        ((m : ℕ) → m < n + length (star_arms columns (id_of es) x arms) + 1 → bytes_eq lists (name m) ≡ false) →
        Carries (id_of es) (has_term es) (star_vars columns (id_of es) x arms) (both_sols g x side (arms.first ∷ arms.required) arms.optional)
        (after_steps (star_steps name primary lists n first columns (id_of es) x arms) relations (star_last name n columns (id_of es) x arms)) }
{}

/// So does the last step of a star with one arm, whose predicate is a variable.
// For a leaf of stars.
pub fn pair_stars_stand()
    ensures { (columns : ColumnsOf) (es : List Entry) (s : SideContents) → AreEntries es → SideStands columns es s → (side : SideName) (g : List RdfTriple) → IsDistinct same_triple g → SameBag (said s) (map (side_item side (id_of es)) g) → AllByRecursion (HasIds es) g →
        (x : Slot) → slot_in_width x ≡ true → (a : Arm) → arm_in_width a ≡ true → IsVariable a.pred → 0 < columns.count → columns.count < 2 ^ 64 →
        (name : ℕ → Name) (primary lists : Name) (n : ℕ) (relations : Relations) → HoldsSide columns.count s (relations primary) (relations lists) → ((m : ℕ) → m < n + 2 → bytes_eq lists (name m) ≡ false) →
        Carries (id_of es) (has_term es) (pair_all_vars (id_of es) x a) (both_sols g x side (a ∷ []) []) (after_steps (pair_steps name primary lists n columns.count (id_of es) x a) relations (pair_last name n)) }
{}

/// What both sides say of triples, as the laws of stars ask it.
pub fn sides_say()
    ensures direct { (layout : LayoutOf) (c : Contents) (g : List RdfTriple) → Says layout c g → SameBag (said c.direct) (map (side_item Direct (id_of c.terms)) g) }
    ensures reverse { (layout : LayoutOf) (c : Contents) (g : List RdfTriple) → Says layout c g → SameBag (said c.reverse) (map (side_item Reverse (id_of c.terms)) g) }
{}
