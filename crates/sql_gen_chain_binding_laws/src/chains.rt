//! Binding of steps that are put behind others.

ghost use Rattle.std.specs.Prelude.{◌≡◌, ℕ, List, ◌++◌, Ok};
ghost use Rattle.table_meaning.specs.declared.schema.Column.{Column};
ghost use Rattle.sql_meaning.specs.declared.script.Core.{Core};
ghost use Rattle.sql_meaning.specs.declared.script.Step.{Step};
ghost use Rattle.sql_rows_meaning.specs.Scopes.{Schemas};
ghost use Rattle.sql_rows_meaning.specs.Binding.{check_body, check_steps};
ghost use Rattle.sql_gen_chain_binding_laws.specs.StepsBind.{StepsBind};

/// Steps that bind over what earlier steps leave bind behind them.
// For the steps of a node, behind those of its parts.
pub fn further_steps_bind()
    ensures { (xs ys : List Step) (t u v : Schemas) → StepsBind xs t u → StepsBind ys u v → StepsBind (xs ++ ys) t v }
{}

/// Steps that bind, and a body that binds over what they leave, bind as a script, whatever the number of the first SELECT.
// For the whole of a compiled query.
pub fn scripts_of_steps_bind()
    ensures { (steps : List Step) (t u : Schemas) (last : List Core) (columns : List Column) → StepsBind steps t u → ((n : ℕ) → check_body u n last ≡ Ok columns) → (n : ℕ) → check_steps n t steps last ≡ Ok columns }
{}
