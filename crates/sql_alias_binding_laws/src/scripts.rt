//! The binding of scripts under other aliases.

ghost use Rattle.std.specs.Prelude.{◌≡◌, List};
ghost use Rattle.sql_meaning.specs.declared.script.Script.{Script};
ghost use Rattle.sql_rows_meaning.specs.declared.schema.NamedSchema.{NamedSchema};
ghost use Rattle.sql_rows_meaning.specs.Binding.{check_script};
ghost use Rattle.sql_alias_laws.specs.Aliases.{NewNames, realias_script, script_aliases, AreToldApart};

/// A script under other aliases has the same columns, or the same first fault in the same SELECT, where the new aliases differ as the old ones do.
// For the visitor that renames aliases: with the law of the rows, `exec` answers the same.
pub fn renamed_scripts_bind_alike()
    ensures { (f : NewNames) (s : Script) → AreToldApart f (script_aliases s) → (schemas : List NamedSchema) → check_script (realias_script f s) schemas ≡ check_script s schemas }
{}
