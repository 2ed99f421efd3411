//! The SELECTs of Join, LeftJoin, Union and Filter bind.

ghost use Rattle.std.specs.Prelude.{◌≡◌, ℕ, Bool, List, Some, None, Ok};
ghost use Rattle.table_meaning.specs.declared.kind.Kind.TheVariants as kind;
ghost use Rattle.sql_meaning.specs.declared.expression.SqlExpr.{SqlExpr};
ghost use Rattle.sql_rows_meaning.specs.Scopes.{Scope, Schemas};
ghost use Rattle.sql_rows_meaning.specs.Checks.{check};
ghost use Rattle.sql_rows_meaning.specs.Binding.{check_select, check_body};
ghost use Rattle.sql_gen_step_laws.specs.Carried.{Name};
ghost use Rattle.sql_gen_step_laws.specs.StepSelects.{join_core, both, union_body};
ghost use Rattle.sql_gen_term_laws.specs.Filters.{filter_core};
ghost use Rattle.sql_gen_binding_laws.specs.StepColumns.{step_schema, Once, term_schema, TermsSeen};

/// The SELECT of a join, or of an optional one, binds over the columns of two steps, and has those of both.
// For the compiler's steps of Join and LeftJoin.
pub fn join_binds()
    ensures { (schemas : Schemas) (left : Bool) (a b : Name) (vs ws certain : List ℕ) → schemas a ≡ Some (step_schema vs) → schemas b ≡ Some (step_schema ws) → Once vs → Once ws →
        check_select schemas None (join_core left a b vs ws certain) ≡ Ok (step_schema (both vs ws)) }
{}

/// So does the body of a union, whatever the number of its first SELECT.
// For the compiler's step of a Union.
pub fn union_binds()
    ensures { (schemas : Schemas) (n : ℕ) (a b : Name) (vs ws : List ℕ) → schemas a ≡ Some (step_schema vs) → schemas b ≡ Some (step_schema ws) → Once vs → Once ws →
        check_body schemas n (union_body a b vs ws).cores ≡ Ok (step_schema (both vs ws)) }
{}

/// The SELECT of a filter binds where its condition does.
// For the compiler's step of a Filter.
pub fn filter_binds()
    ensures { (schemas : Schemas) (a terms : Name) (vs us : List ℕ) → schemas a ≡ Some (step_schema vs) → schemas terms ≡ Some term_schema → Once vs → Once us →
        (condition : SqlExpr) → ((s : Scope) → TermsSeen us s → check condition s ≡ Ok kind.Truth) → check_select schemas None (filter_core a terms vs us condition) ≡ Ok (step_schema vs) }
{}
