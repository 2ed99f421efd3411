//! The law of an Either star's steps: over tables that stand for triples they carry the star's solutions.
#![tactic(auto)]

ghost use Rattle.std.specs.Prelude.{◌≡◌, ℕ, ◌+◌, ◌^◌, ◌<◌, Bool, false, List, [], map};
ghost use Rattle.std.specs.List.{AllByRecursion};
ghost use Rattle.std.specs.Str.{bytes_eq};
ghost use Rattle.bags.specs.Bag.{SameBag};
ghost use Rattle.rdf_meaning.specs.Terms.{RdfTriple};
ghost use Rattle.rdf_meaning.specs.declared.side.SideName.{SideName};
ghost use Rattle.query_meaning.specs.declared.pattern.Slot.{Slot};
ghost use Rattle.query_plan_meaning.specs.declared.star.StarBody.TheVariants.{Either};
ghost use Rattle.query_plan_meaning.specs.Stars.{body_sols};
ghost use Rattle.sql_rows_meaning.specs.Tables.{Relations};
ghost use Rattle.sql_rows_meaning.specs.Rows.{after_steps};
ghost use Rattle.layout_meaning.specs.Columns.{ColumnsOf};
ghost use Rattle.layout_standing_meaning.specs.Dictionary.{Entry, AreEntries, HasIds, id_of, has_term};
ghost use Rattle.layout_standing_meaning.specs.Contents.{SideContents, said};
ghost use Rattle.layout_standing_meaning.specs.Standing.{SideStands};
ghost use Rattle.sql_gen_step_laws.specs.Carried.{Name, Carries};
ghost use Rattle.sql_gen_star_meaning.specs.SideTables.{HoldsSide};
ghost use Rattle.sql_gen_star_meaning.specs.Openings.{AreReadable};
ghost use Rattle.sql_gen_star_solution_laws.specs.StarArms.{first_arm, other_arms, side_item};
ghost use Rattle.sql_gen_star_laws.specs.StarSteps.{IsStar, AreWithin};
ghost use Rattle.sql_gen_either_laws.specs.EitherSteps.{Half, half_arms, arms_in, either_steps, either_number, either_vars, AreApart};

/// Where a side stands and says the triples, the last step of an Either star carries the star's solutions: on either
/// side, with one look at the primary table for both lists of arms.
// For a leaf of stars.
pub fn either_stars_stand()
    ensures { (columns : ColumnsOf) (es : List Entry) (s : SideContents) → AreEntries es → SideStands columns es s → (side : SideName) (g : List RdfTriple) → SameBag (said s) (map (side_item side (id_of es)) g) → AllByRecursion (HasIds es) g →
        (x : Slot) (l r : Half) → IsStar (id_of es) x (half_arms l) → IsStar (id_of es) x (half_arms r) →
        (first : Bool) → AreReadable s first (first_arm columns (id_of es) x l.first) (other_arms columns (id_of es) x l.first l.others []) → AreReadable s first (first_arm columns (id_of es) x r.first) (other_arms columns (id_of es) x r.first r.others []) →
        columns.count < 2 ^ 64 → AreWithin columns → (name : ℕ → Name) (primary lists : Name) (n : ℕ) (relations : Relations) → HoldsSide columns.count s (relations primary) (relations lists) →
        ((m : ℕ) → m < either_number n columns (id_of es) x l r + 1 → bytes_eq lists (name m) ≡ false) → AreApart name (either_number n columns (id_of es) x l r + 1) →
        Carries (id_of es) (has_term es) (either_vars columns (id_of es) x l r) (body_sols g x side (Either (arms_in l) (arms_in r)))
        (after_steps (either_steps name primary lists n first columns (id_of es) x l r) relations (name (either_number n columns (id_of es) x l r))) }
{}
