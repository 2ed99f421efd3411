//! A whole text, read as a script.

ghost use Rattle.std.specs.Prelude.{◌≡◌, ◌≤◌, ◌-◌, IsTrue, IfOk, IfErr, length, drop};
ghost use Rattle.sql_meaning.specs.Scripts.{is_writable};
ghost use Rattle.sql_meaning.specs.Texts.{SpellsOnly, place_of};
ghost use Rattle.sql_text.specs.Refuses.{Refuses, AnswersSpelled};

use crate::refusal::SqlRefusal;
use crate::script::read_script;
use sql_meaning::{Placed, Script};
use sql_text_cursor::Refusal;
use sql_text_tokens::tokens_of;
use std::alloc::Global;

// The place of the first of the last tokens, or the end of the text where there are none.
fn place_at(tokens: &[Placed], left: usize, end: usize) -> usize
    requires { left ≤ length tokens.now }
    ensures { result ≡ place_of end (drop (length tokens.now - left) tokens.now) }
{
    match &tokens[tokens.len() - left..] {
        [] => end,
        [first, ..] => first.at,
    }
}

/// Reads the one script that a text spells; what is read is writable. `Deep` comes where the text has a deep token, which for
/// the text of a script is where its depth passes 1,024, and `Syntax` where it has none and spells no script.
#[tactic(auto, using(crate::specs::Refuses::read_steps))]
pub fn read_sql(alloc: Global, bytes: &[u8]) -> Result<Script, SqlRefusal>
    ensures reads { IfOk result (λ script. SpellsOnly bytes.now script) }
    ensures writable { IfOk result (λ script. IsTrue (is_writable script)) }
    ensures refuses { IfErr result (λ e. Refuses bytes.now e) }
    ensures spelled { AnswersSpelled bytes.now result }
{
    let tokens = tokens_of(alloc, bytes)?;
    match read_script(alloc, tokens.as_slice()) {
        Ok(script) => Ok(script),
        Err(Refusal::NoMemory) => Err(SqlRefusal::NoMemory),
        Err(Refusal::Deep) => Err(SqlRefusal::Deep),
        Err(Refusal::Syntax { left }) => Err(SqlRefusal::Syntax {
            at: place_at(tokens.as_slice(), left, bytes.len()),
        }),
    }
}
