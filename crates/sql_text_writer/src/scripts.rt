//! Scripts.
#![tactic(auto, using(rel_cells::specs::Fronts::kept_same, rel_cells::specs::Fronts::kept_append, rel_cells::specs::Fronts::kept_on, crate::specs::Lists::left_at_first))]

ghost use Rattle.std.specs.Prelude.{◌≡◌, ◌++◌, OnOk, OnErr, IsTrue, map, drop, length};
ghost use Rattle.rel_cells.specs.Fronts.{KeepsFront};
ghost use Rattle.sql_meaning.specs.Canon.{canon};
ghost use Rattle.sql_meaning.specs.Scripts.{is_writable};
ghost use Rattle.sql_meaning.specs.Texts.{Spells};
ghost use Rattle.sql_text_spelling_laws.specs.Pieces.{joined, step_piece, steps_piece, script_piece};

use crate::cores::write_body;
use sql_meaning::{Script, Step};
use std::alloc::AllocError;

// A step, with what stands before it.
fn write_step(step: &Step, before: &[u8], into: &mut Vec<u8>) -> Result<(), AllocError>
    ensures ok { OnOk result (into.new.items ≡ into.old.items ++ (before.now ++ step_piece step.now)) }
    ensures kept { KeepsFront into.old.items into.new.items }
{
    into.extend_from_slice(before)?;
    into.extend_from_slice(step.name.bytes())?;
    into.extend_from_slice(b" AS (")?;
    write_body(&step.body, into)?;
    into.push(b')')?;
    Ok(())
}

fn write_steps(steps: &[Step], separator: &[u8], into: &mut Vec<u8>) -> Result<(), AllocError>
    ensures ok { OnOk result (into.new.items ≡ into.old.items ++ joined separator.now (map step_piece steps.now)) }
    ensures kept { KeepsFront into.old.items into.new.items }
{
    let mut before: &[u8] = b"";
    for step in steps {
        write_step(step, before, into)?;
        before = separator;
    }
    Ok(())
}

// All steps behind WITH, and a space.
fn write_with(steps: &[Step], into: &mut Vec<u8>) -> Result<(), AllocError>
    ensures ok { OnOk result (into.new.items ≡ into.old.items ++ steps_piece steps.now) }
    ensures kept { KeepsFront into.old.items into.new.items }
{
    if steps.is_empty() {
        return Ok(());
    }
    into.extend_from_slice(b"WITH ")?;
    write_steps(steps, b", ", into)?;
    into.push(b' ')?;
    Ok(())
}

fn write_script(script: &Script, into: &mut Vec<u8>) -> Result<(), AllocError>
    ensures ok { OnOk result (into.new.items ≡ into.old.items ++ script_piece script.now) }
    ensures kept { KeepsFront into.old.items into.new.items }
{
    write_with(script.steps.as_slice(), into)?;
    write_body(&script.last, into)?;
    Ok(())
}

/// Appends the canonical spelling of a script; after an error `into` is as before. The script must
/// be writable: at most 1,024 levels deep, and of the forms that a text can have. What is appended
/// spells the script: it is cut into tokens that the grammar reads as this script.
#[tactic(auto, using(crate::specs::Written::written, crate::specs::Written::spelled_behind))]
pub fn write_sql(script: &Script, into: &mut Vec<u8>) -> Result<(), AllocError>
    requires { IsTrue (is_writable script.now) }
    ensures ok { OnOk result (into.new.items ≡ into.old.items ++ canon script.now) }
    ensures spells { OnOk result (Spells (drop (length into.old.items) into.new.items) script.now) }
    ensures err { OnErr result (into.new.items ≡ into.old.items) }
{
    let start = into.len();
    let written = write_script(script, into);
    if written.is_err() {
        into.truncate(start);
    }
    written
}
