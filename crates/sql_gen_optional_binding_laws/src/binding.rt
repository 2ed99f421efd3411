//! The two steps of a LeftJoin with a condition bind.

ghost use Rattle.std.specs.Prelude.{◌≡◌, ℕ, List, Some, None, Ok};
ghost use Rattle.table_meaning.specs.declared.kind.Kind.TheVariants as kind;
ghost use Rattle.sql_meaning.specs.declared.expression.SqlExpr.{SqlExpr};
ghost use Rattle.sql_rows_meaning.specs.Scopes.{Scope, Schemas};
ghost use Rattle.sql_rows_meaning.specs.Checks.{check};
ghost use Rattle.sql_rows_meaning.specs.Binding.{check_select, check_body};
ghost use Rattle.sql_gen_step_laws.specs.Carried.{Name};
ghost use Rattle.sql_gen_step_laws.specs.StepSelects.{both};
ghost use Rattle.sql_gen_optional_laws.specs.MatchRows.{matches_core, optional_body};
ghost use Rattle.sql_gen_binding_laws.specs.StepColumns.{step_schema, Once, term_schema, TermsSeen};
ghost use Rattle.sql_gen_optional_binding_laws.specs.MatchColumns.{match_schema};

/// The first step binds where its condition does.
// For the compiler's first step of a LeftJoin with a condition.
pub fn matches_bind()
    ensures { (schemas : Schemas) (a b terms : Name) (vs ws us certain : List ℕ) → schemas a ≡ Some (step_schema vs) → schemas b ≡ Some (step_schema ws) → schemas terms ≡ Some term_schema → Once vs → Once ws → Once us →
        (condition : SqlExpr) → ((s : Scope) → TermsSeen us s → check condition s ≡ Ok kind.Truth) → check_select schemas None (matches_core a b terms vs ws us certain condition) ≡ Ok (match_schema vs (both vs ws)) }
{}

/// The second step binds over the first one, whatever the number of its first SELECT.
// For the compiler's second step of a LeftJoin with a condition.
pub fn optional_binds()
    ensures { (schemas : Schemas) (n : ℕ) (a m : Name) (vs ws certain : List ℕ) → schemas a ≡ Some (step_schema vs) → schemas m ≡ Some (match_schema vs (both vs ws)) → Once vs → Once ws →
        check_body schemas n (optional_body a m vs ws certain).cores ≡ Ok (step_schema (both vs ws)) }
{}
