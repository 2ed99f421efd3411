//! Laws of the form of a filter's SQL: its kind, its form and depth, and the columns that it names. The functions without a
//! body are laws.
#![tactic(auto)]

ghost use Rattle.std.specs.Prelude.{◌≡◌, ℕ, ◌+◌, List, true, Ok};
ghost use Rattle.table_meaning.specs.declared.kind.Kind.TheVariants as kind;
ghost use Rattle.query_meaning.specs.declared.expression.ValueExpr.{ValueExpr};
ghost use Rattle.query_meaning.specs.declared.expression.TruthExpr.{TruthExpr};
ghost use Rattle.sql_rows_meaning.specs.Scopes.{Scope};
ghost use Rattle.sql_rows_meaning.specs.Checks.{check};
ghost use Rattle.sql_gen_binding_laws.specs.StepColumns.{Once, TermsSeen};
ghost use Rattle.sql_gen_form_laws.specs.Fits.{ExprFits, AreVariables};
ghost use Rattle.sql_gen_filter_meaning.specs.Chains.{value_sql};
ghost use Rattle.sql_gen_filter_meaning.specs.Filters.{filter_sql};
ghost use Rattle.sql_gen_filter_meaning.specs.Leaves.{truth_names};
ghost use Rattle.sql_gen_filter_meaning.specs.Connectives.{connectives, names_term_columns};
ghost use Rattle.sql_gen_filter_meaning.specs.ConditionVariables.{condition_variables};
ghost use Rattle.sql_gen_filter_form_laws.specs.Written.{is_written_value, is_written};

/// A column of a value is at most four levels deep, however long a chain of functions the value is.
pub fn chains_are_shallow()
    ensures class { (e : ValueExpr) → is_written_value e ≡ true → ExprFits 4 (value_sql e).class }
    ensures number { (e : ValueExpr) → is_written_value e ≡ true → ExprFits 4 (value_sql e).number }
    ensures text { (e : ValueExpr) → is_written_value e ≡ true → ExprFits 4 (value_sql e).text }
    ensures aux { (e : ValueExpr) → is_written_value e ≡ true → ExprFits 4 (value_sql e).aux }
{}

/// The SQL of a truth expression has the form of the grammar, and at most nine levels and one more for each connective
/// inside one another, where its constants and variables can be written.
pub fn filters_fit()
    ensures { (e : TruthExpr) → is_written e ≡ true → ExprFits (9 + connectives e) (filter_sql e) }
{}

/// The SQL of a truth expression is a truth wherever the columns of its variables' terms are seen.
pub fn filters_are_truths()
    ensures { (us : List ℕ) (e : TruthExpr) → truth_names us e ≡ true → (s : Scope) → TermsSeen us s → check (filter_sql e) s ≡ Ok kind.Truth }
{}

/// It names the columns of the terms of its variables, and no others.
pub fn filters_name_term_columns()
    ensures { (us : List ℕ) (e : TruthExpr) → truth_names us e ≡ true → names_term_columns us (filter_sql e) ≡ true }
{}

/// The variables of a condition, in order, stand there once each; there are such variables, and each of the condition is
/// among them, where it can be written.
pub fn condition_variables_are_all()
    ensures once { (e : TruthExpr) → Once (condition_variables e) }
    ensures variables { (e : TruthExpr) → AreVariables (condition_variables e) }
    ensures names { (e : TruthExpr) → is_written e ≡ true → truth_names (condition_variables e) e ≡ true }
{}
