//! Scripts under other aliases.

ghost use Rattle.std.specs.Prelude.{◌≡◌, List};
ghost use Rattle.table_meaning.specs.Tables.{NamedTable};
ghost use Rattle.sql_meaning.specs.declared.script.Script.{Script};
ghost use Rattle.sql_rows_meaning.specs.Rows.{script_rows};
ghost use Rattle.sql_alias_laws.specs.Aliases.{NewNames, realias_script, script_aliases, AreToldApart};

/// A script under other aliases has the same rows over all tables, where the new aliases differ as the old ones do.
// For the visitor that renames aliases.
pub fn renamed_scripts_mean_the_same()
    ensures { (f : NewNames) (s : Script) → AreToldApart f (script_aliases s) → (tables : List NamedTable) → script_rows (realias_script f s) tables ≡ script_rows s tables }
{}
