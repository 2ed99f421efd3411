//! Placed scripts.

ghost use Rattle.std.specs.Prelude.{◌≡◌, List, Ok};
ghost use Rattle.table_meaning.specs.declared.schema.Column.{Column};
ghost use Rattle.table_meaning.specs.Tables.{NamedTable};
ghost use Rattle.sql_meaning.specs.declared.script.Script.{Script};
ghost use Rattle.sql_rows_meaning.specs.Rows.{script_rows};
ghost use Rattle.sql_rows_meaning.specs.Scopes.{schemas_in};
ghost use Rattle.sql_rows_meaning.specs.Binding.{check_script};
ghost use Rattle.sql_bind_meaning.specs.Rows.{bound_rows};
ghost use Rattle.sql_bind_laws.specs.Places.{place_script};

/// A script that binds has the rows of its form with places for names, over all tables with these schemas.
// For the engine, which reads places alone.
pub fn placed_scripts_mean_the_same()
    ensures { (s : Script) (tables : List NamedTable) (columns : List Column) → check_script s (schemas_in tables) ≡ Ok columns → bound_rows (place_script s (schemas_in tables)) tables ≡ script_rows s tables }
{}
