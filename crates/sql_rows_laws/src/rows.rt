//! Laws of scripts that bind.

ghost use Rattle.std.specs.Prelude.{◌≡◌, List, true, Ok};
ghost use Rattle.std.specs.List.{list_all};
ghost use Rattle.table_meaning.specs.declared.kind.Kind.{Kind};
ghost use Rattle.table_meaning.specs.declared.schema.Column.{Column};
ghost use Rattle.table_meaning.specs.Schemas.{is_schema};
ghost use Rattle.table_meaning.specs.Tables.{NamedTable, has_kind, are_rows, is_table};
ghost use Rattle.sql_meaning.specs.declared.expression.SqlExpr.{SqlExpr};
ghost use Rattle.sql_meaning.specs.declared.script.Script.{Script};
ghost use Rattle.sql_meaning.specs.Scripts.{script_form};
ghost use Rattle.sql_rows_meaning.specs.Values.{Sight, value_of};
ghost use Rattle.sql_rows_meaning.specs.Rows.{script_rows};
ghost use Rattle.sql_rows_meaning.specs.declared.schema.NamedSchema.{NamedSchema};
ghost use Rattle.sql_rows_meaning.specs.Scopes.{Scope, schemas_in};
ghost use Rattle.sql_rows_meaning.specs.Checks.{check};
ghost use Rattle.sql_rows_meaning.specs.Binding.{check_script};
ghost use Rattle.sql_rows_laws.specs.KindLaws.{IsInSight};

/// The value of an expression has the kind that its check finds, or is null.
// For the engine, whose cells have the kinds of their columns.
pub fn values_have_their_kinds()
    ensures { (e : SqlExpr) (scope : Scope) (kind : Kind) → check e scope ≡ Ok kind → (sight : Sight) → IsInSight scope sight → has_kind kind (value_of e sight) ≡ true }
{}

/// The columns of a script that binds are a schema.
// For the rows that the engine hands out, whose schema has at least one column and no name twice.
pub fn bound_columns_are_a_schema()
    ensures { (s : Script) (schemas : List NamedSchema) (columns : List Column) → script_form s ≡ true → check_script s schemas ≡ Ok columns → is_schema columns ≡ true }
{}

/// The rows of a script that binds have a cell for each of its columns, of its kind or null.
// For the rows that the engine hands out, which are rows under a schema, and for the text of `exec`.
pub fn bound_rows_fit()
    ensures { (s : Script) (tables : List NamedTable) (columns : List Column) → list_all is_table tables ≡ true → check_script s (schemas_in tables) ≡ Ok columns → are_rows columns (script_rows s tables) ≡ true }
{}
