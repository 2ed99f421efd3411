//! Expressions kind by kind, names, and scripts of parts that fit.

ghost use Rattle.std.specs.Prelude.{◌≡◌, ℕ, ℤ, ◌+◌, ◌<◌, ◌≤◌, Bool, true, List, length};
ghost use Rattle.std.specs.List.{AllByRecursion};
ghost use Rattle.std.specs.Str.{is_utf8};
ghost use Rattle.query_eval_meaning.specs.Mapping.{width};
ghost use Rattle.table_meaning.specs.Ints.{is_wide_int};
ghost use Rattle.table_meaning.specs.Names.{is_name};
ghost use Rattle.table_meaning.specs.declared.kind.Kind.{Kind};
ghost use Rattle.sql_meaning.specs.declared.expression.Branch.{Branch};
ghost use Rattle.sql_meaning.specs.declared.expression.SqlExpr.{SqlExpr};
ghost use Rattle.sql_meaning.specs.declared.expression.SqlExpr.TheVariants as sql;
ghost use Rattle.sql_meaning.specs.declared.script.Body.{Body};
ghost use Rattle.sql_meaning.specs.declared.script.Step.{Step};
ghost use Rattle.sql_meaning.specs.Scripts.{all_of, is_writable};
ghost use Rattle.sql_gen_step_laws.specs.Carried.{Name, column};
ghost use Rattle.sql_gen_step_laws.specs.StepSelects.{every};
ghost use Rattle.sql_gen_term_laws.specs.TermTable.{term_alias};
ghost use Rattle.sql_gen_optional_laws.specs.MatchRows.{kept};
ghost use Rattle.sql_gen_form_laws.specs.Fits.{ExprFits, BranchFits, body_fits, step_fits};

/// A name of a column, and a constant, takes one level.
pub fn constants_fit()
    ensures name { (n : ℕ) (alias column : Name) → is_name alias ≡ true → is_name column ≡ true → ExprFits (n + 1) (sql.Name alias column) }
    ensures int { (n : ℕ) (i : ℤ) → is_wide_int i ≡ true → ExprFits (n + 1) (sql.Int i) }
    ensures text { (n : ℕ) (s : List ℕ) → is_utf8 s ≡ true → ExprFits (n + 1) (sql.Text s) }
    ensures truth { (n : ℕ) (b : Bool) → ExprFits (n + 1) (sql.Truth b) }
    ensures null { (n : ℕ) (k : Kind) → ExprFits (n + 1) (sql.Null k) }
{}

/// A test takes a level more than its parts.
pub fn tests_fit()
    ensures equal { (n : ℕ) (a b : SqlExpr) → ExprFits n a → ExprFits n b → ExprFits (n + 1) (sql.Equal a b) }
    ensures less { (n : ℕ) (a b : SqlExpr) → ExprFits n a → ExprFits n b → ExprFits (n + 1) (sql.Less a b) }
    ensures null { (n : ℕ) (a : SqlExpr) → ExprFits n a → ExprFits (n + 1) (sql.IsNull a) }
{}

/// So do NOT, AND, OR, COALESCE and CASE; and AND of any number of parts takes at most a level more.
pub fn operators_fit()
    ensures not { (n : ℕ) (a : SqlExpr) → ExprFits n a → ExprFits (n + 1) (sql.Not a) }
    ensures all { (n : ℕ) (es : List SqlExpr) → 2 ≤ length es → AllByRecursion (ExprFits n) es → ExprFits (n + 1) (sql.All es) }
    ensures any { (n : ℕ) (es : List SqlExpr) → 2 ≤ length es → AllByRecursion (ExprFits n) es → ExprFits (n + 1) (sql.Any es) }
    ensures first { (n : ℕ) (es : List SqlExpr) → 2 ≤ length es → AllByRecursion (ExprFits n) es → ExprFits (n + 1) (sql.First es) }
    ensures cases { (n : ℕ) (bs : List Branch) (last : SqlExpr) → 1 ≤ length bs → AllByRecursion (BranchFits n) bs → ExprFits n last → ExprFits (n + 1) (sql.Case bs last) }
    ensures every { (n : ℕ) (es : List SqlExpr) → AllByRecursion (ExprFits n) es → ExprFits (n + 1) (every es) }
{}

/// The columns of variables and the aliases of the tables of terms are names of the dialect, and none of its words.
pub fn names_are_names()
    ensures column { (v : ℕ) → v < width → is_name (column v) ≡ true }
    ensures kept { (v : ℕ) → v < width → is_name (kept v) ≡ true }
    ensures term { (v : ℕ) → v < width → is_name (term_alias v) ≡ true }
{}

/// A step with a name and a body that fits does, and a script of steps that fit, with a last body that fits, has a text.
pub fn scripts_are_writable()
    ensures step { (s : Step) → is_name s.name ≡ true → body_fits s.body ≡ true → step_fits s ≡ true }
    ensures script { (steps : List Step) (last : Body) → all_of step_fits steps ≡ true → body_fits last ≡ true →
        is_writable (record { steps = steps; last = last }) ≡ true }
{}
