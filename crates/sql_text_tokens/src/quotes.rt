//! Texts in quotes.

ghost use Rattle.std.specs.Prelude.{None, Some, IfOk, MatchOption};
ghost use Rattle.sql_meaning.specs.Tokens as cut;
ghost use Rattle.sql_text_tokens.specs.Quotes.{IsContent};

use std::alloc::{AllocError, Global};

/// What a text between quotes holds.
#[derive(Debug, Drop)]
pub struct Content {
    pub bytes: Vec<u8>,
    /// The bytes that it takes behind its first quote, with the quote that ends it.
    pub taken: usize,
}

/// The content of a text, from the bytes behind its first quote, or none where it doesn't end.
#[tactic(auto, using(crate::specs::Quotes::quote_steps))]
pub fn quoted(alloc: Global, bytes: &[u8]) -> Result<Option<Content>, AllocError>
    ensures { IfOk result (λ content. IsContent content bytes.now) }
{
    let mut content = Vec::new(alloc);
    let mut after_quote = false;
    let mut at = 0;
    while at < bytes.len() {
        let byte = bytes[at];
        if after_quote && byte != b'\'' {
            return Ok(Some(Content {
                bytes: content,
                taken: at,
            }));
        }
        if byte == b'\'' && !after_quote {
            after_quote = true;
        } else {
            after_quote = false;
            content.push(byte)?;
        }
        at += 1;
    }
    Ok(if after_quote {
        Some(Content {
            bytes: content,
            taken: at,
        })
    } else {
        None
    })
}
