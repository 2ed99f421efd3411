//! The SELECTs of Join, LeftJoin, Union and Filter.

ghost use Rattle.std.specs.Prelude.{◌≡◌, ℕ, ◌≤◌, Bool, true, false, List};
ghost use Rattle.table_meaning.specs.Names.{is_name};
ghost use Rattle.sql_meaning.specs.declared.expression.SqlExpr.{SqlExpr};
ghost use Rattle.sql_meaning.specs.Scripts.{is_primary, core_refs, body_refs};
ghost use Rattle.sql_gen_step_laws.specs.Carried.{Name};
ghost use Rattle.sql_gen_step_laws.specs.StepSelects.{join_core, union_body};
ghost use Rattle.sql_gen_term_laws.specs.Filters.{filter_core};
ghost use Rattle.sql_gen_optional_laws.specs.MatchRows.{matches_core, optional_body};
ghost use Rattle.sql_gen_form_laws.specs.Fits.{ExprFits, CoreFits, BodyFits, AreVariables};

/// The SELECT of Join and LeftJoin fits, and reads no primary table.
pub fn joins_fit()
    ensures fits { (left : Bool) (a b : Name) → is_name a ≡ true → is_name b ≡ true → (vs ws certain : List ℕ) → AreVariables vs → AreVariables ws →
        CoreFits 4 (join_core left a b vs ws certain) }
    ensures none { (left : Bool) (a b : Name) → is_primary a ≡ false → is_primary b ≡ false → (vs ws certain : List ℕ) → core_refs (join_core left a b vs ws certain) ≡ 0 }
{}

/// So does the body of a Union,
pub fn unions_fit()
    ensures fits { (a b : Name) → is_name a ≡ true → is_name b ≡ true → (vs ws : List ℕ) → AreVariables vs → AreVariables ws → BodyFits 1 (union_body a b vs ws) }
    ensures none { (a b : Name) → is_primary a ≡ false → is_primary b ≡ false → (vs ws : List ℕ) → body_refs (union_body a b vs ws) ≡ 0 }
{}

/// the SELECT of a Filter, which is as deep as its condition,
pub fn filters_fit()
    ensures fits { (n : ℕ) → 3 ≤ n → (a terms : Name) → is_name a ≡ true → is_name terms ≡ true → (vs us : List ℕ) → AreVariables vs → AreVariables us →
        (condition : SqlExpr) → ExprFits n condition → CoreFits n (filter_core a terms vs us condition) }
    ensures none { (a terms : Name) → is_primary a ≡ false → is_primary terms ≡ false → (vs us : List ℕ) (condition : SqlExpr) →
        core_refs (filter_core a terms vs us condition) ≡ 0 }
{}

/// the SELECT of the matches of a LeftJoin with a condition,
pub fn matches_fit()
    ensures fits { (n : ℕ) → 4 ≤ n → (a b terms : Name) → is_name a ≡ true → is_name b ≡ true → is_name terms ≡ true → (vs ws us certain : List ℕ) →
        AreVariables vs → AreVariables ws → AreVariables us → (condition : SqlExpr) → ExprFits n condition → CoreFits n (matches_core a b terms vs ws us certain condition) }
    ensures none { (a b terms : Name) → is_primary a ≡ false → is_primary b ≡ false → is_primary terms ≡ false → (vs ws us certain : List ℕ) (condition : SqlExpr) →
        core_refs (matches_core a b terms vs ws us certain condition) ≡ 0 }
{}

/// and the body that puts the rows without a match behind them.
pub fn optional_joins_fit()
    ensures fits { (a m : Name) → is_name a ≡ true → is_name m ≡ true → (vs ws certain : List ℕ) → AreVariables vs → AreVariables ws → BodyFits 5 (optional_body a m vs ws certain) }
    ensures none { (a m : Name) → is_primary a ≡ false → is_primary m ≡ false → (vs ws certain : List ℕ) → body_refs (optional_body a m vs ws certain) ≡ 0 }
{}
