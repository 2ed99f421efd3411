//! The forms of the last SELECT and of the step of DISTINCT.

ghost use Rattle.std.specs.Prelude.{◌≡◌, ℕ, true, false, List};
ghost use Rattle.table_meaning.specs.Names.{is_name};
ghost use Rattle.query_meaning.specs.declared.modifiers.Modifiers.{Modifiers};
ghost use Rattle.sql_meaning.specs.Scripts.{is_primary, core_refs};
ghost use Rattle.sql_gen_step_laws.specs.Carried.{Name};
ghost use Rattle.sql_gen_last_laws.specs.LastSelect.{last_core};
ghost use Rattle.sql_gen_last_laws.specs.DistinctSelect.{distinct_core};
ghost use Rattle.sql_gen_form_laws.specs.Fits.{CoreFits, AreVariables};
ghost use Rattle.sql_gen_last_form_laws.specs.Bounds.{AreBounded};

/// The last SELECT fits, three levels deep, where the modifiers keep to the bounds of a query; it reads no primary table.
// For the last body of a compiled query.
pub fn last_fits()
    ensures fits { (a terms : Name) → is_name a ≡ true → is_name terms ≡ true → (vs certain : List ℕ) (q : Modifiers) → AreBounded q → CoreFits 3 (last_core a terms vs certain q) }
    ensures none { (a terms : Name) → is_primary a ≡ false → is_primary terms ≡ false → (vs certain : List ℕ) (q : Modifiers) → core_refs (last_core a terms vs certain q) ≡ 0 }
{}

/// So does the step of DISTINCT, one level deep.
// For the step before the last SELECT, where DISTINCT is asked and each key is shown.
pub fn distinct_fits()
    ensures fits { (a : Name) → is_name a ≡ true → (vs us : List ℕ) → AreVariables us → CoreFits 1 (distinct_core a vs us) }
    ensures none { (a : Name) → is_primary a ≡ false → (vs us : List ℕ) → core_refs (distinct_core a vs us) ≡ 0 }
{}
