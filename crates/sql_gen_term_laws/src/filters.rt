//! The step of a Filter.

ghost use Rattle.std.specs.Prelude.{ℕ, List, Bool};
ghost use Rattle.std.specs.List.{filter};
ghost use Rattle.rdf_meaning.specs.Terms.{RdfTerm};
ghost use Rattle.query_eval_meaning.specs.Mapping.{Mapping};
ghost use Rattle.query_eval_meaning.specs.Expressions.{Truth, is_true};
ghost use Rattle.sql_meaning.specs.declared.expression.SqlExpr.{SqlExpr};
ghost use Rattle.sql_rows_meaning.specs.Tables.{Relations};
ghost use Rattle.sql_gen_step_laws.specs.Carried.{Name, Ids, Carries, select_table};
ghost use Rattle.sql_gen_term_laws.specs.TermTable.{HasTerms};
ghost use Rattle.sql_gen_term_laws.specs.Filters.{filter_core, Means};

/// A filter over a step carries what passes it, where the condition's value is the truth of the filter.
// For the compiler's step of a Filter.
pub fn filter_steps()
    ensures { (ids : Ids) (known : RdfTerm → Bool) (relations : Relations) (a terms : Name) → HasTerms ids known (relations terms) → (vs us : List ℕ) (ms : List Mapping) →
        Carries ids known vs ms (relations a) → (condition : SqlExpr) (truth : Mapping → Truth) → Means us condition truth →
        Carries ids known vs (filter (λ m. is_true (truth m)) ms) (select_table relations (filter_core a terms vs us condition)) }
{}
