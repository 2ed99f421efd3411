//! Laws of the steps of a star: access, pairs and open hold exactly the partial solutions, in numbers, on either side.
#![tactic(auto)]

ghost use Rattle.std.specs.Prelude.{◌≡◌, ℕ, ◌^◌, ◌≤◌, ◌<◌, ◌+◌, ◌∷◌, length, Bool, true, false, List, [], codes};
ghost use Rattle.std.specs.List.{flat_map, AllByRecursion};
ghost use Rattle.std.specs.Str.{bytes_eq};
ghost use Rattle.bags.specs.Bag.{SameBag};
ghost use Rattle.table_meaning.specs.Tables.{NamedTable};
ghost use Rattle.sql_rows_meaning.specs.Tables.{Relations, relations_of};
ghost use Rattle.sql_rows_meaning.specs.Rows.{body_relation, after_steps};
ghost use Rattle.layout_standing_meaning.specs.Schemas.{LayoutOf};
ghost use Rattle.layout_standing_meaning.specs.Standing.{AreTables};
ghost use Rattle.layout_meaning.specs.Side.{ValueLists};
ghost use Rattle.layout_meaning.specs.Sound.{numbered};
ghost use Rattle.layout_standing_meaning.specs.Contents.{SideContents, Contents, element_cells};
ghost use Rattle.sql_gen_step_laws.specs.Carried.{Name, select_table};
ghost use Rattle.sql_gen_step_laws.specs.StepSelects.{has};
ghost use Rattle.layout_row_meaning.specs.Reading.{IsReadable};
ghost use Rattle.sql_gen_star_meaning.specs.declared.arm.Asked.{Asked};
ghost use Rattle.sql_gen_star_meaning.specs.Asked.{asked_vars, Askable, IsEntity, IsPredicate};
ghost use Rattle.sql_gen_star_meaning.specs.SideTables.{list_columns, HoldsSide};
ghost use Rattle.sql_gen_star_meaning.specs.Partials.{Partial, HoldsPartials, AccessArm, access_partials, all_pairs, open_arm};
ghost use Rattle.sql_gen_star_meaning.specs.StarSelects.{access_core, open_core};
ghost use Rattle.sql_gen_star_meaning.specs.PairSelects.{pairs_body};
ghost use Rattle.sql_gen_star_meaning.specs.declared.arm.StarArm.{StarArm};
ghost use Rattle.sql_gen_star_meaning.specs.Openings.{Opening, openings_from, cells_of, opening_steps, last_name, access_arms, arms_steps, arms_last, open_vars, AllAskable, open_all};

/// The access step holds each row that it reads once: the row's entity, and the cell of each arm.
// For the first step of a star.
pub fn access_steps()
    ensures { (relations : Relations) (primary lists : Name) (k : ℕ) (s : SideContents) → k < 2 ^ 64 → HoldsSide k s (relations primary) (relations lists) → IsReadable k s →
        (first : Bool) (entity : Asked) → IsEntity entity → (arms : ℕ → AccessArm) → ((i : ℕ) → AllByRecursion (λ c. c < k) (arms i).columns) → (cells : List ℕ) →
        HoldsPartials s.lists (asked_vars entity []) cells (access_partials first entity arms s.rows) (select_table relations (access_core primary first entity arms cells)) }
{}

/// The step of one arm holds every choice of its values that agrees with what is bound before.
// For the other steps of a star.
pub fn arms_open()
    ensures { (relations : Relations) (before lists : Name) (ls : ValueLists) (vs cells : List ℕ) (ps : List Partial) →
        (relations lists).columns ≡ list_columns → SameBag (relations lists).rows (flat_map element_cells ls) → ((n : ℕ) → numbered n ls ≤ 1) →
        HoldsPartials ls vs cells ps (relations before) → (i : ℕ) (kept : List ℕ) (a : Asked) →
        has cells i ≡ true → ((j : ℕ) → has kept j ≡ true → has cells j ≡ true) → Askable vs a →
        HoldsPartials ls (asked_vars a vs) kept (flat_map (open_arm ls i a) ps) (select_table relations (open_core before lists vs i kept a)) }
{}

/// The step of a predicate that is a variable holds each pair of each row once: the row's entity, the pair's predicate
/// and its cell.
// For a star whose predicate is a variable.
pub fn pairs_steps()
    ensures { (relations : Relations) (primary lists : Name) (k : ℕ) (s : SideContents) → 0 < k → k < 2 ^ 64 → HoldsSide k s (relations primary) (relations lists) → IsReadable k s →
        (entity predicate : Asked) → IsEntity entity → IsPredicate entity predicate →
        HoldsPartials s.lists (asked_vars predicate (asked_vars entity [])) (0 ∷ []) (all_pairs entity predicate s.rows) (body_relation relations (pairs_body primary entity predicate k)) }
{}

/// The tables of some contents hold both sides.
pub fn sides_are_held()
    ensures direct { (layout : LayoutOf) (c : Contents) (tables : List NamedTable) → AreTables layout c tables →
        HoldsSide layout.direct.count c.direct (relations_of tables (codes "DPH")) (relations_of tables (codes "DS")) }
    ensures reverse { (layout : LayoutOf) (c : Contents) (tables : List NamedTable) → AreTables layout c tables →
        HoldsSide layout.reverse.count c.reverse (relations_of tables (codes "RPH")) (relations_of tables (codes "RS")) }
{}

/// The access step and then the steps of all arms hold every choice that the rows give, whatever the steps are called.
// For a star of arms with constant predicates.
pub fn all_arms_open()
    ensures { (name : ℕ → Name) (primary lists : Name) (n : ℕ) (k : ℕ) (s : SideContents) (relations : Relations) → k < 2 ^ 64 → HoldsSide k s (relations primary) (relations lists) → IsReadable k s →
        (first : Bool) (entity : Asked) → IsEntity entity → (a : StarArm) (arms : List StarArm) → AllByRecursion (λ (b : StarArm). AllByRecursion (λ c. c < k) b.columns) (a ∷ arms) → AllAskable (asked_vars entity []) (openings_from 0 (a ∷ arms)) →
        ((m : ℕ) → m < n + length (a ∷ arms) + 1 → bytes_eq lists (name m) ≡ false) →
        HoldsPartials s.lists (open_vars (asked_vars entity []) (openings_from 0 (a ∷ arms))) [] (open_all s.lists (openings_from 0 (a ∷ arms)) (access_partials first entity (access_arms (a ∷ arms)) s.rows))
        (after_steps (arms_steps name primary lists n first entity (a ∷ arms)) relations (arms_last name n (a ∷ arms))) }
{}

/// The steps of arms over any step that holds their cells hold every choice of their values.
// For each of the two chains of an Either star, which begin at one access step.
pub fn openings_open()
    ensures { (name : ℕ → Name) (lists : Name) (ls : ValueLists) (relations : Relations) → (relations lists).columns ≡ list_columns → SameBag (relations lists).rows (flat_map element_cells ls) → ((n : ℕ) → numbered n ls ≤ 1) →
        (a : Opening) (arms : List Opening) (n : ℕ) (before : Name) (vs cells : List ℕ) (ps : List Partial) → HoldsPartials ls vs cells ps (relations before) →
        ((j : ℕ) → has (cells_of (a ∷ arms)) j ≡ true → has cells j ≡ true) → AllAskable vs (a ∷ arms) → ((m : ℕ) → m < n + length (a ∷ arms) → bytes_eq lists (name m) ≡ false) →
        HoldsPartials ls (open_vars vs (a ∷ arms)) [] (open_all ls (a ∷ arms) ps) (after_steps (opening_steps name lists n before vs (a ∷ arms)) relations (last_name name n before (a ∷ arms))) }
{}
