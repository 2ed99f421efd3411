//! Texts in quotes.

ghost use Rattle.std.specs.Prelude.{◌≡◌, ◌<◌, ◌∷◌, [], false, length, MatchOption, IfSome, IfOk, Some, None, option_map, if◌then◌else◌};
ghost use Rattle.std.specs.Str.{is_utf8, bytes_eq};
ghost use Rattle.table_text.specs.Reading.{is_raw, escaped, unquoted, text_of, before};

use rdf_meaning::Text;
use std::alloc::{AllocError, Global};
use std::str;

fn is_raw(byte: u8) -> bool
    ensures { result ≡ is_raw byte }
{
    !matches!(byte, b'"' | b'\\' | b'\t' | b'\n' | b'\r')
}

// The byte that a mark behind a backslash stands for.
fn escaped(mark: u8) -> Option<u8>
    ensures { result ≡ escaped mark }
{
    match mark {
        b't' => Some(b'\t'),
        b'n' => Some(b'\n'),
        b'r' => Some(b'\r'),
        b'"' => Some(b'"'),
        b'\\' => Some(b'\\'),
        _ => None,
    }
}

// The first byte of a text before its last quote, and what follows what spells it.
fn split_byte(bytes: &[u8]) -> Option<(u8, &[u8])>
    ensures cases { MatchOption result (bytes_eq bytes.now (34 ∷ []) ≡ false → unquoted bytes.now ≡ None)
        (λ x. unquoted bytes.now ≡ before (x.0 ∷ []) (unquoted x.1.now)) }
    ensures shorter { IfSome result (λ x. length x.1.now < length bytes.now) }
{
    match bytes {
        [b'\\', mark, after @ ..] => match escaped(*mark) {
            Some(byte) => Some((byte, after)),
            None => None,
        },
        [byte, after @ ..] if is_raw(*byte) => Some((*byte, after)),
        _ => None,
    }
}

// The text before the quote that is the last byte.
#[tactic(auto, using(crate::proofs::Quotes::pushed))]
fn unquoted(alloc: Global, bytes: &[u8]) -> Result<Option<Vec<u8>>, AllocError>
    ensures { IfOk result (λ text. option_map (λ t. t.items) text ≡ unquoted bytes.now) }
{
    let mut text = Vec::with_capacity(alloc, bytes.len())?;
    let mut rest = bytes;
    'bytes: loop {
        if rest == b"\"".as_slice() {
            return Ok(Some(text));
        }
        let Some((byte, after)) = split_byte(rest) else {
            return Ok(None);
        };
        text.push(byte)?;
        rest = after;
    }
}

// Bytes as a text, where they are UTF-8.
fn as_text(alloc: Global, bytes: &[u8]) -> Result<Option<Text>, AllocError>
    ensures { IfOk result (λ text. text ≡ (if is_utf8 bytes.now then Some bytes.now else None)) }
{
    match str::from_utf8(bytes) {
        Ok(text) => Ok(Some(rdf_meaning::text_of(alloc, text)?)),
        Err(_) => Ok(None),
    }
}

/// The text that the bytes spell, in quotes.
#[tactic(auto, unfolding(crate::specs::Reading::text_of))]
pub fn read_text(alloc: Global, field: &[u8]) -> Result<Option<Text>, AllocError>
    ensures { IfOk result (λ text. text ≡ text_of field.now) }
{
    let [b'"', bytes @ ..] = field else {
        return Ok(None);
    };
    let Some(text) = unquoted(alloc, bytes)? else {
        return Ok(None);
    };
    as_text(alloc, &text)
}
