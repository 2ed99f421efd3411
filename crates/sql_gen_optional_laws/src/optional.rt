//! The two steps of a LeftJoin with a condition: its matches, and beside them the rows of the left side of which none
//! came.

ghost use Rattle.std.specs.Prelude.{◌≡◌, ◌<◌, ℕ, List, Bool, false};
ghost use Rattle.std.specs.List.{AllByRecursion};
ghost use Rattle.std.specs.Str.{bytes_eq};
ghost use Rattle.rdf_meaning.specs.Terms.{RdfTerm};
ghost use Rattle.query_eval_meaning.specs.Mapping.{Mapping, width};
ghost use Rattle.query_eval_meaning.specs.Eval.{left_join};
ghost use Rattle.query_eval_meaning.specs.Matches.{matches_of};
ghost use Rattle.query_eval_meaning.specs.Expressions.{Truth, is_true};
ghost use Rattle.sql_meaning.specs.declared.expression.SqlExpr.{SqlExpr};
ghost use Rattle.sql_rows_meaning.specs.Tables.{Relations, with_relation};
ghost use Rattle.sql_rows_meaning.specs.Rows.{body_relation};
ghost use Rattle.sql_gen_step_laws.specs.Carried.{Name, Ids, Numbers, Carries, Over, Binds, select_table};
ghost use Rattle.sql_gen_step_laws.specs.StepSelects.{both};
ghost use Rattle.sql_gen_term_laws.specs.TermTable.{HasTerms};
ghost use Rattle.sql_gen_term_laws.specs.Filters.{Means};
ghost use Rattle.sql_gen_optional_laws.specs.MatchRows.{Matches, matches_core, optional_body};

/// The first step holds the matches: the pairs that fit and of which the condition is true.
// For the compiler's first step of a LeftJoin with a condition.
pub fn match_steps()
    ensures { (ids : Ids) (known : RdfTerm → Bool) → Numbers ids known → (relations : Relations) (a b terms : Name) → HasTerms ids known (relations terms) → (vs ws us certain : List ℕ) (ls rs : List Mapping) →
        Carries ids known vs ls (relations a) → Carries ids known ws rs (relations b) → AllByRecursion (Binds certain) ls → AllByRecursion (Binds certain) rs →
        (condition : SqlExpr) (truth : Mapping → Truth) → Means us condition truth →
        Matches ids known vs (both vs ws) (matches_of (λ m. is_true (truth m)) ls rs) (select_table relations (matches_core a b terms vs ws us certain condition)) }
{}

/// The matches beside the rows of the left side of which none came carry the optional join.
// For the compiler's second step of a LeftJoin with a condition.
pub fn optional_steps()
    ensures { (ids : Ids) (known : RdfTerm → Bool) → Numbers ids known → (relations : Relations) (a m : Name) (vs ws certain : List ℕ) (ls rs : List Mapping) (passes : Mapping → Bool) →
        Carries ids known vs ls (relations a) → AllByRecursion (Over ws known) rs → AllByRecursion (λ v. v < width) ws → Matches ids known vs (both vs ws) (matches_of passes ls rs) (relations m) → AllByRecursion (Binds certain) ls →
        Carries ids known (both vs ws) (left_join passes ls rs) (body_relation relations (optional_body a m vs ws certain)) }
{}

/// Both steps, one after the other, carry the optional join with its condition.
// For the compiler's two steps of a LeftJoin with a condition, m the name of the first one.
pub fn conditional_steps()
    ensures { (ids : Ids) (known : RdfTerm → Bool) → Numbers ids known → (relations : Relations) (a b terms : Name) → HasTerms ids known (relations terms) → (vs ws us certain mine : List ℕ) (ls rs : List Mapping) →
        Carries ids known vs ls (relations a) → Carries ids known ws rs (relations b) → AllByRecursion (Binds certain) ls → AllByRecursion (Binds certain) rs → AllByRecursion (Binds mine) ls →
        (condition : SqlExpr) (truth : Mapping → Truth) → Means us condition truth → (m : Name) → bytes_eq a m ≡ false →
        Carries ids known (both vs ws) (left_join (λ m. is_true (truth m)) ls rs)
        (body_relation (with_relation m (select_table relations (matches_core a b terms vs ws us certain condition)) relations) (optional_body a m vs ws mine)) }
{}
