//! The cut of a text into tokens.

ghost use Rattle.std.specs.Prelude.{◌≡◌, ◌<◌, ◌≤◌, IfOk, IsTrue, length, drop};
ghost use Rattle.std.specs.List.{list_all};
ghost use Rattle.sql_meaning.specs.Tokens as cut;
ghost use Rattle.sql_text_tokens.specs.Pieces.{Goes, Opens, TakesSome};
ghost use Rattle.rdf_meaning.specs.Characters as characters;

use crate::marks::{is_digit, is_letter, opening_of};
use crate::quotes::quoted;
use crate::runs::{int_token, run_len, word_token};
use rdf_meaning::text_of;
use sql_meaning::{Opening, Placed, Token};
use sqlite_items::Items;
use std::alloc::{AllocError, Global};

/// What stands in front of some bytes.
#[derive(Debug, Drop)]
pub enum Piece {
    Blank,
    /// A token, how many bytes it has, and whether it is a word or a number.
    Token(Token, usize, bool),
    Broken,
}

fn opening(bytes: &[u8]) -> Opening
    requires { 0 < length bytes.now }
    ensures { Opens bytes.now result }
{
    opening_of(bytes[0])
}

fn starts_with_digit(bytes: &[u8]) -> bool
    ensures { result ≡ cut.begins_with characters.is_digit bytes.now }
{
    match bytes {
        [first, ..] => is_digit(*first),
        [] => false,
    }
}

fn starts_with_letter(bytes: &[u8]) -> bool
    ensures { result ≡ cut.begins_with characters.is_letter bytes.now }
{
    match bytes {
        [first, ..] => is_letter(*first),
        [] => false,
    }
}

// The token of a whole run.
#[tactic(auto, using(crate::specs::Runs::number_made))]
fn run_token(alloc: Global, run: &[u8]) -> Result<Token, AllocError>
    requires { IsTrue (list_all cut.is_run_byte run.now) }
    ensures { IfOk result (λ token. token ≡ cut.run_token run.now) }
{
    if starts_with_letter(run) {
        Ok(word_token(alloc, run)?)
    } else {
        Ok(int_token(run))
    }
}

fn run_piece(alloc: Global, bytes: &[u8], joined: bool) -> Result<Piece, AllocError>
    requires { Opens bytes.now Opening.Run }
    ensures goes { IfOk result (λ piece. Goes joined bytes.now piece) }
    ensures some { IfOk result (λ piece. TakesSome piece bytes.now) }
{
    let len = run_len(bytes);
    let token = run_token(alloc, &bytes[..len])?;
    Ok(Piece::Token(token, len, true))
}

// The bytes from a place on.
fn behind(bytes: &[u8], at: usize) -> &[u8]
    requires { at ≤ length bytes.now }
    ensures { result.now ≡ drop at bytes.now }
{
    &bytes[at..]
}

fn negative_piece(bytes: &[u8], joined: bool) -> Piece
    requires { Opens bytes.now Opening.Minus }
    ensures goes { Goes joined bytes.now result }
    ensures some { TakesSome result bytes.now }
{
    let rest = behind(bytes, 1);
    if joined {
        return Piece::Broken;
    }
    if !starts_with_digit(rest) {
        return Piece::Broken;
    }
    let len = run_len(rest);
    let token = int_token(&bytes[..len + 1]);
    Piece::Token(token, len + 1, true)
}

fn text_piece(alloc: Global, bytes: &[u8], joined: bool) -> Result<Piece, AllocError>
    requires { Opens bytes.now Opening.Quote }
    ensures goes { IfOk result (λ piece. Goes joined bytes.now piece) }
    ensures some { IfOk result (λ piece. TakesSome piece bytes.now) }
{
    let rest = behind(bytes, 1);
    let Some(content) = quoted(alloc, rest)? else {
        return Ok(Piece::Broken)
    };
    let taken = content.taken + 1;
    match std::str::from_utf8(content.bytes.as_slice()) {
        Ok(text) => Ok(Piece::Token(Token::Text(text_of(alloc, text)?), taken, false)),
        Err(_) => Ok(Piece::Broken),
    }
}

fn next_piece(alloc: Global, bytes: &[u8], joined: bool) -> Result<Piece, AllocError>
    requires { 0 < length bytes.now }
    ensures goes { IfOk result (λ piece. Goes joined bytes.now piece) }
    ensures some { IfOk result (λ piece. TakesSome piece bytes.now) }
{
    match opening(bytes) {
        Opening::Blank => Ok(Piece::Blank),
        Opening::Sign(mark) => Ok(Piece::Token(Token::Mark(mark), 1, false)),
        Opening::Run => Ok(run_piece(alloc, bytes, joined)?),
        Opening::Minus => Ok(negative_piece(bytes, joined)),
        Opening::Quote => Ok(text_piece(alloc, bytes, joined)?),
        Opening::Nothing => Ok(Piece::Broken),
    }
}

/// The tokens of a whole text, each with the place of its first byte. Where no token begins, where a
/// text doesn't end or isn't UTF-8, and where a number stands directly behind a word or a number, a
/// broken token ends the list.
pub fn tokens_of(alloc: Global, bytes: &[u8]) -> Result<Items<Placed>, AllocError>
    ensures { IfOk result (λ tokens. cut.IsCut bytes.now tokens) }
{
    let mut tokens = Items::new(alloc);
    let mut at = 0;
    let mut joined = false;
    while at < bytes.len() {
        let rest = behind(bytes, at);
        match next_piece(alloc, rest, joined)? {
            Piece::Blank => {
                at += 1;
                joined = false;
            }
            Piece::Token(token, taken, run) => {
                tokens.push(Placed { token, at })?;
                at += taken;
                joined = run;
            }
            Piece::Broken => {
                tokens.push(Placed {
                    token: Token::Broken,
                    at,
                })?;
                return Ok(tokens);
            }
        }
    }
    Ok(tokens)
}
