//! Escapes for bytes that can't be seen: `\t` `\n` `\r` `\\`, `\s` for a blank, and `\xHH` for any byte.

use anyhow::{Result, bail};
use std::alloc::{AllocError, Global};

// What the bytes before say of the next one.
#[derive(Clone, Copy)]
enum Place {
    Plain,
    Backslash,
    FirstDigit,
    SecondDigit(u8),
}

// The byte that a letter after a backslash stands for.
fn named(letter: u8) -> Result<u8> {
    match letter {
        b't' => Ok(b'\t'),
        b'n' => Ok(b'\n'),
        b'r' => Ok(b'\r'),
        b's' => Ok(b' '),
        b'\\' => Ok(b'\\'),
        _ => bail!("no such escape"),
    }
}

fn digit_of(byte: u8) -> Result<u8> {
    match byte {
        b'0'..=b'9' => Ok(byte - b'0'),
        b'A'..=b'F' => Ok(byte - b'A' + 10),
        _ => bail!("two digits from 0 to F stand behind \\x"),
    }
}

fn push_byte(byte: u8, into: &mut Vec<u8>) -> Result<Place> {
    into.push(byte)?;
    Ok(Place::Plain)
}

fn push_next(place: Place, byte: u8, into: &mut Vec<u8>) -> Result<Place> {
    match place {
        Place::Plain if byte == b'\\' => Ok(Place::Backslash),
        Place::Plain => push_byte(byte, into),
        Place::Backslash if byte == b'x' => Ok(Place::FirstDigit),
        Place::Backslash => push_byte(named(byte)?, into),
        Place::FirstDigit => Ok(Place::SecondDigit(digit_of(byte)?)),
        Place::SecondDigit(high) => push_byte((high << 4) | digit_of(byte)?, into),
    }
}

/// Appends the bytes that a text with escapes stands for.
pub fn push_unescaped(text: &str, into: &mut Vec<u8>) -> Result<()> {
    let mut place = Place::Plain;
    for byte in text.bytes() {
        place = push_next(place, byte, into)?;
    }
    match place {
        Place::Plain => Ok(()),
        _ => bail!("an escape has no end"),
    }
}

fn push_escaped(byte: u8, text: &mut String) -> Result<(), AllocError> {
    match byte {
        b'\t' => text.push_str("\\t"),
        b'\n' => text.push_str("\\n"),
        b'\r' => text.push_str("\\r"),
        b'\\' => text.push_str("\\\\"),
        b' '..=b'~' => text.push(byte as char),
        _ => {
            let hex = format!(in *text.allocator(); "\\x{byte:02X}")?;
            text.push_str(hex.as_str())
        }
    }
}

/// The text with escapes that stands for bytes, of which no more than the first thousand are told.
pub fn escaped(alloc: Global, bytes: &[u8]) -> Result<String, AllocError> {
    let mut text = String::new(alloc);
    for byte in bytes.iter().take(1000) {
        push_escaped(*byte, &mut text)?;
    }
    Ok(text)
}
