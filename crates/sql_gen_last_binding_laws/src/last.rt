//! The last SELECT and the step of DISTINCT bind.

ghost use Rattle.std.specs.Prelude.{◌≡◌, ◌<◌, ◌≤◌, ◌^◌, ℕ, List, length, Some, None, Ok};
ghost use Rattle.std.specs.List.{AllByRecursion};
ghost use Rattle.query_meaning.specs.declared.modifiers.Modifiers.{Modifiers};
ghost use Rattle.query_eval_meaning.specs.Mapping.{width};
ghost use Rattle.sql_rows_meaning.specs.Scopes.{Schemas};
ghost use Rattle.sql_rows_meaning.specs.Binding.{check_select};
ghost use Rattle.sql_gen_answer_meaning.specs.Columns.{answer_columns};
ghost use Rattle.sql_gen_step_laws.specs.Carried.{Name};
ghost use Rattle.sql_gen_last_laws.specs.LastSelect.{last_core};
ghost use Rattle.sql_gen_last_laws.specs.DistinctSelect.{distinct_core};
ghost use Rattle.sql_gen_binding_laws.specs.StepColumns.{step_schema, Once, term_schema};

/// Variables that differ and have columns of their own are at most 64, as the shown ones of a query.
// For the premise of the next law on the count of the shown variables.
pub fn shown_are_few()
    ensures { (vs : List ℕ) → Once vs → AllByRecursion (λ v. v < width) vs → length vs ≤ width }
{}

/// The last SELECT binds, with three columns for each shown variable.
// For the last body of a compiled query.
pub fn last_binds()
    ensures { (schemas : Schemas) (a terms : Name) (vs certain : List ℕ) (q : Modifiers) → schemas a ≡ Some (step_schema vs) → schemas terms ≡ Some term_schema → length q.shown < 2 ^ 32 →
        check_select schemas None (last_core a terms vs certain q) ≡ Ok (answer_columns (length q.shown)) }
{}

/// The step of DISTINCT binds, with the columns of the shown variables.
// For the step before the last SELECT, where DISTINCT is asked and each key is shown.
pub fn distinct_binds()
    ensures { (schemas : Schemas) (a : Name) (vs us : List ℕ) → schemas a ≡ Some (step_schema vs) → Once us → check_select schemas None (distinct_core a vs us) ≡ Ok (step_schema us) }
{}
