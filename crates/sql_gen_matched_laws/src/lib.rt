//! A filter over the pairs of a LeftJoin: it keeps those that pass. The functions without a body are laws.
#![tactic(auto)]

ghost use Rattle.std.specs.Prelude.{◌≡◌, ◌≤◌, ℕ, Bool, List, Some, None, Ok, true, false};
ghost use Rattle.rdf_meaning.specs.Terms.{RdfTerm};
ghost use Rattle.query_eval_meaning.specs.Mapping.{Mapping};
ghost use Rattle.query_eval_meaning.specs.Matches.{matches_of};
ghost use Rattle.query_eval_meaning.specs.Expressions.{Truth, is_true};
ghost use Rattle.table_meaning.specs.Names.{is_name};
ghost use Rattle.table_meaning.specs.declared.kind.Kind.TheVariants as kind;
ghost use Rattle.sql_meaning.specs.declared.expression.SqlExpr.{SqlExpr};
ghost use Rattle.sql_meaning.specs.Scripts.{is_primary, core_refs};
ghost use Rattle.sql_rows_meaning.specs.Tables.{Relations};
ghost use Rattle.sql_rows_meaning.specs.Scopes.{Scope, Schemas};
ghost use Rattle.sql_rows_meaning.specs.Checks.{check};
ghost use Rattle.sql_rows_meaning.specs.Binding.{check_select};
ghost use Rattle.sql_gen_step_laws.specs.Carried.{Name, Ids, select_table};
ghost use Rattle.sql_gen_term_laws.specs.TermTable.{HasTerms};
ghost use Rattle.sql_gen_term_laws.specs.Filters.{Means};
ghost use Rattle.sql_gen_binding_laws.specs.StepColumns.{Once, term_schema, TermsSeen};
ghost use Rattle.sql_gen_optional_laws.specs.MatchRows.{Matches};
ghost use Rattle.sql_gen_optional_binding_laws.specs.MatchColumns.{match_schema};
ghost use Rattle.sql_gen_form_laws.specs.Fits.{ExprFits, CoreFits, AreVariables};
ghost use Rattle.sql_gen_matched_laws.specs.PassedSelect.{passed_core};

/// A filter over all pairs that fit holds the pairs of which the condition is true.
// For the compiler's second step of a LeftJoin with a condition.
pub fn filters_keep_what_passes()
    ensures { (ids : Ids) (known : RdfTerm → Bool) (relations : Relations) (m terms : Name) → HasTerms ids known (relations terms) → (vs us ts : List ℕ) (ls rs : List Mapping) →
        Matches ids known vs us (matches_of (λ m. true) ls rs) (relations m) → (condition : SqlExpr) (truth : Mapping → Truth) → Means ts condition truth →
        Matches ids known vs us (matches_of (λ m. is_true (truth m)) ls rs) (select_table relations (passed_core m terms vs us ts condition)) }
{}

/// It binds over the columns of the pairs, and has the same.
pub fn filters_over_matches_bind()
    ensures { (schemas : Schemas) (m terms : Name) (vs us ts : List ℕ) → schemas m ≡ Some (match_schema vs us) → schemas terms ≡ Some term_schema → Once vs → Once us → Once ts →
        (condition : SqlExpr) → ((s : Scope) → TermsSeen ts s → check condition s ≡ Ok kind.Truth) → check_select schemas None (passed_core m terms vs us ts condition) ≡ Ok (match_schema vs us) }
{}

/// It fits, as deep as its condition, and reads no primary table.
pub fn filters_over_matches_fit()
    ensures fits { (n : ℕ) → 3 ≤ n → (m terms : Name) → is_name m ≡ true → is_name terms ≡ true → (vs us ts : List ℕ) → AreVariables vs → AreVariables us → AreVariables ts →
        (condition : SqlExpr) → ExprFits n condition → CoreFits n (passed_core m terms vs us ts condition) }
    ensures none { (m terms : Name) → is_primary m ≡ false → is_primary terms ≡ false → (vs us ts : List ℕ) (condition : SqlExpr) → core_refs (passed_core m terms vs us ts condition) ≡ 0 }
{}
