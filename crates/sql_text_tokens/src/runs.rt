//! Words, names and numbers.

ghost use Rattle.std.specs.Prelude.{◌≡◌, ◌≤◌, IsTrue, IfOk, length};
ghost use Rattle.std.specs.List.{list_all};
ghost use Rattle.table_meaning.specs.Ints.{int_of};
ghost use Rattle.sql_meaning.specs.Tokens as cut;
ghost use Rattle.rdf_meaning.specs.Characters as characters;

use crate::marks::{is_run_byte, word_of};
use rdf_meaning::text_of;
use rel_cells::{is_name, read_int};
use sql_meaning::Token;
use std::alloc::{AllocError, Global};

/// How many bytes the longest run of letters, digits and `_` in front has.
pub fn run_len(bytes: &[u8]) -> usize
    ensures value { result ≡ cut.run_len bytes.now }
    ensures within { result ≤ length bytes.now }
{
    let mut len = 0;
    while len < bytes.len() && is_run_byte(bytes[len]) {
        len += 1;
    }
    len
}

/// The token of a run that begins with a letter: a capital word or a name.
#[tactic(auto, using(crate::specs::Runs::run_laws))]
pub fn word_token(alloc: Global, run: &[u8]) -> Result<Token, AllocError>
    requires start { IsTrue (cut.begins_with characters.is_letter run.now) }
    requires all { IsTrue (list_all cut.is_run_byte run.now) }
    ensures { IfOk result (λ token. token ≡ cut.run_token run.now) }
{
    if let Some(word) = word_of(run) {
        return Ok(Token::Mark(word));
    }
    if !is_name(run) {
        return Ok(Token::Broken);
    }
    let Ok(name) = std::str::from_utf8(run) else {
        return Ok(Token::Broken);
    };
    Ok(Token::Name(text_of(alloc, name)?))
}

/// The token of a number, or a broken one.
pub fn int_token(bytes: &[u8]) -> Token
    ensures { result ≡ cut.int_token (int_of bytes.now) }
{
    match read_int(bytes) {
        Some(number) => Token::Int(number),
        None => Token::Broken,
    }
}
