//! Laws of the forms of the SELECTs of stars: they are of the form of the dialect's grammar, at most 4 levels deep, and read
//! the primary table once, or once for each pair of columns. The functions without a body are laws.
#![tactic(auto)]

ghost use Rattle.std.specs.Prelude.{◌≡◌, ℕ, ◌+◌, ◌<◌, ◌≤◌, ◌^◌, Bool, true, false, List, map, length};
ghost use Rattle.std.specs.List.{AllByRecursion};
ghost use Rattle.table_meaning.specs.Names.{is_name};
ghost use Rattle.sql_meaning.specs.Scripts.{total, all_of, is_primary, core_refs, body_refs, step_refs};
ghost use Rattle.sql_gen_step_laws.specs.Carried.{Name};
ghost use Rattle.sql_gen_form_laws.specs.Fits.{CoreFits, BodyFits, AreVariables, step_fits};
ghost use Rattle.sql_gen_star_meaning.specs.declared.arm.Asked.{Asked};
ghost use Rattle.sql_gen_star_meaning.specs.Partials.{AccessArm};
ghost use Rattle.sql_gen_star_meaning.specs.StarSelects.{access_core, open_core};
ghost use Rattle.sql_gen_star_meaning.specs.PairSelects.{pairs_body};
ghost use Rattle.sql_gen_star_meaning.specs.declared.arm.StarArm.{StarArm};
ghost use Rattle.sql_gen_star_meaning.specs.Openings.{Opening, openings_from, access_arm, access_arms, cells_of, opening_steps, arms_steps};
ghost use Rattle.sql_gen_star_form_laws.specs.StarForms.{AskedFits, ArmFits, TwoDigits, CellFits, OpeningFits, StarArmFits, AreNames, AreNoPrimary};

/// The access SELECT fits, and reads the primary table once.
pub fn access_fits()
    ensures fits { (primary : Name) → is_name primary ≡ true → (first : Bool) (entity : Asked) → AskedFits entity →
        (arms : ℕ → AccessArm) (cells : List ℕ) → AllByRecursion (CellFits arms) cells → CoreFits 4 (access_core primary first entity arms cells) }
    ensures once { (primary : Name) → is_primary primary ≡ true → (first : Bool) (entity : Asked) (arms : ℕ → AccessArm) (cells : List ℕ) →
        core_refs (access_core primary first entity arms cells) ≡ 1 }
{}

/// The SELECT that opens an arm fits, and reads no primary table.
pub fn openings_fit()
    ensures fits { (before lists : Name) → is_name before ≡ true → is_name lists ≡ true → (vs : List ℕ) → AreVariables vs → (i : ℕ) → TwoDigits i →
        (kept : List ℕ) → AllByRecursion TwoDigits kept → (a : Asked) → AskedFits a → CoreFits 4 (open_core before lists vs i kept a) }
    ensures none { (before lists : Name) → is_primary before ≡ false → is_primary lists ≡ false → (vs : List ℕ) (i : ℕ) (kept : List ℕ) (a : Asked) →
        core_refs (open_core before lists vs i kept a) ≡ 0 }
{}

/// The body of the SELECTs of pairs fits, and reads the primary table once for each pair of columns.
pub fn pairs_fit()
    ensures fits { (primary : Name) → is_name primary ≡ true → (entity predicate : Asked) → AskedFits entity → AskedFits predicate →
        (k : ℕ) → 1 ≤ k → k < 2 ^ 64 → BodyFits 4 (pairs_body primary entity predicate k) }
    ensures each { (primary : Name) → is_primary primary ≡ true → (entity predicate : Asked) (k : ℕ) → body_refs (pairs_body primary entity predicate k) ≡ k }
{}

/// At most 100 arms have cells with names: those that the access step reads, and those that an open step keeps.
pub fn arms_have_cells()
    ensures read { (arms : List StarArm) → AllByRecursion (λ (a : StarArm). ArmFits (access_arm a)) arms → length arms ≤ 100 →
        AllByRecursion (CellFits (access_arms arms)) (cells_of (openings_from 0 arms)) }
    ensures kept { (i : ℕ) (arms : List StarArm) → i + length arms ≤ 100 → AllByRecursion TwoDigits (cells_of (openings_from i arms)) }
{}

/// The steps that open arms fit, whatever step they begin at, and read no primary table.
pub fn steps_of_openings_fit()
    ensures fits { (name : ℕ → Name) (lists : Name) → is_name lists ≡ true → (n : ℕ) (before : Name) → is_name before ≡ true →
        (vs : List ℕ) → AreVariables vs → (arms : List Opening) → AllByRecursion OpeningFits arms → AreNames name n (length arms) →
        all_of step_fits (opening_steps name lists n before vs arms) ≡ true }
    ensures none { (name : ℕ → Name) (lists : Name) → is_primary lists ≡ false → (n : ℕ) (before : Name) → is_primary before ≡ false →
        (vs : List ℕ) (arms : List Opening) → AreNoPrimary name n (length arms) → total (map step_refs (opening_steps name lists n before vs arms)) ≡ 0 }
{}

/// The steps of at most 100 arms fit, and read the primary table once.
pub fn steps_of_arms_fit()
    ensures fits { (name : ℕ → Name) (primary lists : Name) → is_name primary ≡ true → is_name lists ≡ true → (n : ℕ) (first : Bool) (entity : Asked) → AskedFits entity →
        (arms : List StarArm) → AllByRecursion StarArmFits arms → length arms ≤ 100 → AreNames name n (1 + length arms) →
        all_of step_fits (arms_steps name primary lists n first entity arms) ≡ true }
    ensures once { (name : ℕ → Name) (primary lists : Name) → is_primary primary ≡ true → is_primary lists ≡ false → (n : ℕ) (first : Bool) (entity : Asked) (arms : List StarArm) →
        AreNoPrimary name n (1 + length arms) → total (map step_refs (arms_steps name primary lists n first entity arms)) ≡ 1 }
{}
