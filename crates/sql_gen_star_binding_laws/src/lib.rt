//! The SELECTs of stars bind: over the tables of a side, whose number of columns is known, and over the step before. Their
//! columns are the ones, those of variables, and the cells of the arms that aren't open yet. The functions without a body
//! are laws.
#![tactic(auto)]

ghost use Rattle.std.specs.Prelude.{◌≡◌, ℕ, suc, ◌+◌, ◌<◌, ◌≤◌, Bool, true, false, List, [], ◌∷◌, length, Some, None, Ok};
ghost use Rattle.std.specs.List.{AllByRecursion};
ghost use Rattle.std.specs.Str.{bytes_eq};
ghost use Rattle.sql_rows_meaning.specs.Scopes.{Schemas};
ghost use Rattle.sql_rows_meaning.specs.Binding.{check_select, check_body};
ghost use Rattle.layout_standing_meaning.specs.Schemas.{primary_schema, list_schema};
ghost use Rattle.sql_gen_step_laws.specs.Carried.{Name};
ghost use Rattle.sql_gen_step_laws.specs.StepSelects.{has};
ghost use Rattle.sql_gen_binding_laws.specs.StepColumns.{step_schema, Once};
ghost use Rattle.sql_gen_chain_binding_laws.specs.StepsBind.{StepsBind};
ghost use Rattle.sql_gen_star_meaning.specs.declared.arm.Asked.{Asked};
ghost use Rattle.sql_gen_star_meaning.specs.declared.arm.StarArm.{StarArm};
ghost use Rattle.sql_gen_star_meaning.specs.Asked.{asked_vars, Askable, IsPredicate};
ghost use Rattle.sql_gen_star_meaning.specs.Partials.{AccessArm};
ghost use Rattle.sql_gen_star_meaning.specs.StarSelects.{access_core, open_core};
ghost use Rattle.sql_gen_star_meaning.specs.PairSelects.{pairs_body};
ghost use Rattle.sql_gen_star_meaning.specs.Openings.{Opening, openings_from, cells_of, opening_steps, last_name, arms_steps, arms_last, open_vars, AllAskable};
ghost use Rattle.sql_gen_star_binding_laws.specs.StarColumns.{partial_schema};
ghost use Rattle.sql_gen_star_binding_laws.specs.StarSchemas.{with_openings, with_arms, AreNew};

/// The access SELECT binds over a primary table that has the columns of its arms, and has the columns of the entity and of
/// the arms' cells.
// For the first step of a star.
pub fn access_binds()
    ensures { (schemas : Schemas) (primary : Name) (k : ℕ) → schemas primary ≡ Some (primary_schema k) → (first : Bool) (entity : Asked) (arms : ℕ → AccessArm) →
        ((i : ℕ) → AllByRecursion (λ c. c < k) (arms i).columns) → (cells : List ℕ) → Once cells →
        check_select schemas None (access_core primary first entity arms cells) ≡ Ok (partial_schema (asked_vars entity []) cells) }
{}

/// The SELECT that opens an arm binds over a step that has the arm's cell and over the lists, and has the columns of the
/// variables and of the cells that it keeps.
// For the other steps of a star.
pub fn openings_bind()
    ensures { (schemas : Schemas) (before lists : Name) (vs cells : List ℕ) → schemas before ≡ Some (partial_schema vs cells) → schemas lists ≡ Some list_schema → Once vs →
        (i : ℕ) (kept : List ℕ) (a : Asked) → has cells i ≡ true → ((j : ℕ) → has kept j ≡ true → has cells j ≡ true) → Once kept → Askable vs a →
        check_select schemas None (open_core before lists vs i kept a) ≡ Ok (partial_schema (asked_vars a vs) kept) }
{}

/// The body of the SELECTs of pairs binds over a primary table of as many pairs of columns, whatever the number of its first
/// SELECT, and has the columns of entity and predicate and of one cell.
// For the first step of a star whose predicate is a variable.
pub fn pairs_bind()
    ensures { (schemas : Schemas) (n : ℕ) (primary : Name) (k : ℕ) → 0 < k → schemas primary ≡ Some (primary_schema k) → (entity predicate : Asked) → IsPredicate entity predicate →
        check_body schemas n (pairs_body primary entity predicate k).cores ≡ Ok (partial_schema (asked_vars predicate (asked_vars entity [])) (0 ∷ [])) }
{}

/// A step of a star that has no cell has the columns of a step.
// For the last step of a star.
pub fn no_cells_are_left()
    ensures { (vs : List ℕ) → partial_schema vs [] ≡ step_schema vs }
{}

/// Each variable stands once among those of a star, where each place says rightly whether its variable is bound before.
// For what the steps behind a star ask of its variables.
pub fn variables_stand_once()
    ensures entity { (entity : Asked) → Once (asked_vars entity []) }
    ensures more { (vs : List ℕ) (a : Asked) → Once vs → Askable vs a → Once (asked_vars a vs) }
{}

/// The steps that open arms bind over a step that has their cells and over the lists, whatever step they begin at. The last of
/// them has the columns of a step, and what has another name stays as it is.
// For a star, for each chain of an Either star, and for a star whose predicate is a variable.
pub fn steps_of_openings_bind()
    ensures binds { (name : ℕ → Name) (lists : Name) (n : ℕ) (before : Name) (vs cells : List ℕ) (arms : List Opening) (s : Schemas) → s before ≡ Some (partial_schema vs cells) →
        s lists ≡ Some list_schema → Once vs → Once (cells_of arms) → ((j : ℕ) → has (cells_of arms) j ≡ true → has cells j ≡ true) → AllAskable vs arms → AreNew name n (length arms) s →
        StepsBind (opening_steps name lists n before vs arms) s (with_openings name n vs arms s) }
    ensures there { (name : ℕ → Name) (n : ℕ) (before : Name) (vs : List ℕ) (a : Opening) (arms : List Opening) (s : Schemas) →
        with_openings name n vs (a ∷ arms) s (last_name name n before (a ∷ arms)) ≡ Some (step_schema (open_vars vs (a ∷ arms))) }
    ensures others { (name : ℕ → Name) (n : ℕ) (vs : List ℕ) (arms : List Opening) (s : Schemas) (x : Name) →
        ((m : ℕ) → n ≤ m → m < n + length arms → bytes_eq x (name m) ≡ false) → with_openings name n vs arms s x ≡ s x }
{}

/// The access step and the steps of its arms bind over the two tables of a side, and the last of them has the columns of a step.
// For a star whose predicates are constants.
pub fn steps_of_arms_bind()
    ensures binds { (name : ℕ → Name) (primary lists : Name) (n k : ℕ) (s : Schemas) → s primary ≡ Some (primary_schema k) → s lists ≡ Some list_schema →
        (first : Bool) (entity : Asked) (arms : List StarArm) → AllByRecursion (λ (b : StarArm). AllByRecursion (λ c. c < k) b.columns) arms →
        AllAskable (asked_vars entity []) (openings_from 0 arms) → AreNew name n (suc (length arms)) s →
        StepsBind (arms_steps name primary lists n first entity arms) s (with_arms name n entity arms s) }
    ensures there { (name : ℕ → Name) (n : ℕ) (entity : Asked) (arms : List StarArm) (s : Schemas) →
        with_arms name n entity arms s (arms_last name n arms) ≡ Some (step_schema (open_vars (asked_vars entity []) (openings_from 0 arms))) }
    ensures cells { (i : ℕ) (arms : List StarArm) → Once (cells_of (openings_from i arms)) }
{}
