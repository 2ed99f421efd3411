//! Laws of filters in three values: what the SQL of an expression gives over a row that carries a solution. The functions
//! without a body are laws.
#![tactic(auto)]

ghost use Rattle.std.specs.Prelude.{◌≡◌, ℕ, List, Bool, true};
ghost use Rattle.std.specs.List.{filter};
ghost use Rattle.rdf_meaning.specs.Terms.{RdfTerm};
ghost use Rattle.query_meaning.specs.declared.expression.ValueExpr.{ValueExpr};
ghost use Rattle.query_meaning.specs.declared.expression.TruthExpr.{TruthExpr};
ghost use Rattle.query_eval_meaning.specs.Mapping.{Mapping};
ghost use Rattle.query_eval_meaning.specs.Expressions.{value_over, truth_over, is_true};
ghost use Rattle.sql_rows_meaning.specs.Tables.{Relations};
ghost use Rattle.sql_gen_step_laws.specs.Carried.{Name, Ids, Carries, select_table};
ghost use Rattle.sql_gen_term_laws.specs.TermTable.{HasTerms};
ghost use Rattle.sql_gen_term_laws.specs.Filters.{filter_core, Means};
ghost use Rattle.sql_gen_filter_meaning.specs.Chains.{value_sql};
ghost use Rattle.sql_gen_filter_meaning.specs.Filters.{filter_sql};
ghost use Rattle.sql_gen_filter_meaning.specs.Leaves.{value_names, truth_names};
ghost use Rattle.sql_gen_filter_laws.specs.Shown.{Gives};

/// The four columns of a value expression are those of its term, or nulls where it is an error.
pub fn values_are_shown()
    ensures { (us : List ℕ) (e : ValueExpr) → value_names us e ≡ true → Gives us (value_sql e) (value_over e) }
{}

/// The SQL of a truth expression is true, false or null where the expression is true, false or an error.
pub fn filters_keep_three_values()
    ensures { (us : List ℕ) (e : TruthExpr) → truth_names us e ≡ true → Means us (filter_sql e) (truth_over e) }
{}

/// A filter over a step carries what passes it.
pub fn filters_select()
    ensures { (ids : Ids) (known : RdfTerm → Bool) (relations : Relations) (a terms : Name) → HasTerms ids known (relations terms) → (vs us : List ℕ) (ms : List Mapping) →
        Carries ids known vs ms (relations a) → (e : TruthExpr) → truth_names us e ≡ true →
        Carries ids known vs (filter (λ m. is_true (truth_over e m)) ms) (select_table relations (filter_core a terms vs us (filter_sql e))) }
{}
