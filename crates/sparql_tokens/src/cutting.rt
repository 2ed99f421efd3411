//! A text cut into its tokens.

ghost use Rattle.std.specs.Prelude.{◌≡◌, ◌≤◌, ◌<◌, ◌+◌, ◌^◌, length, take, false, chars, IfOk, IfErr};
ghost use Rattle.sparql_meaning.specs.Cut.{cut, cut_from, size, sound_front};
ghost use Rattle.sparql_tokens.specs.Nameless.{IsEnd};
ghost use Rattle.sparql_tokens.specs.Pieces.{IsBadCut, StartsToken};

use crate::classes::{ends_line, is_blank};
use crate::names::{nameless_left, nameless_still};
use crate::place::token_at;
use sparql_meaning::Token;
use sqlite_items::Items;
use std::alloc::{AllocError, Global};
use std::str;

/// Why a text isn't cut into tokens.
#[derive(Clone, Copy, Debug, PartialEq, Eq)]
pub enum TokenRefusal {
    /// The first place outside a token, a blank and a comment at which none of them begins, in bytes.
    Bad { at: usize },
    NoMemory,
}

impl From<AllocError> for TokenRefusal {
    ghost use Rattle.std.specs.Prelude.{◌≡◌};
    ghost use Rattle.sparql_tokens.specs.declared.cutting.TokenRefusal.TheVariants as refusal;

    ghost from_gives = { λ _ r. r ≡ refusal.NoMemory };

    fn from(_: AllocError) -> TokenRefusal {
        TokenRefusal::NoMemory
    }
}

// How many bytes the characters take.
#[tactic(auto, using(crate::proofs::CutLaws::size_step))]
fn byte_len(text: &[char]) -> usize
    requires { size text.now < 2 ^ 64 }
    ensures { result ≡ size text.now }
{
    let mut bytes = 0;
    let mut rest = text;
    'chars: while let Some((first, after)) = rest.split_first() {
        bytes += first.len_utf8();
        rest = after;
    }
    bytes
}

// What stands behind the blanks and comments in front, and its place.
#[tactic(auto, using(crate::proofs::CutLaws::blank_paths, crate::specs::Nameless::end_paths))]
fn after_blanks(text: &[char], from: usize) -> (&[char], usize)
    requires { from + size text.now < 2 ^ 64 }
    ensures same { cut_from false 0 result.1 result.0.now ≡ cut_from false 0 from text.now }
    ensures count { result.1 + size result.0.now ≡ from + size text.now }
    ensures shorter { length result.0.now ≤ length text.now }
    ensures starts { StartsToken result.0.now }
    ensures behind { IsEnd result.0.now text.now }
{
    let mut comment = false;
    let mut at = from;
    let mut rest = text;
    'chars: while let Some((first, after)) = rest.split_first() {
        if comment {
            comment = !ends_line(*first);
        } else if *first == '#' {
            comment = true;
        } else if !is_blank(*first) {
            return (rest, at);
        }
        at += first.len_utf8();
        rest = after;
    }
    (rest, at)
}

#[tactic(auto, using(crate::proofs::CutLaws::cut_paths, crate::specs::Nameless::cut_names))]
fn cut_chars(alloc: Global, text: &[char]) -> Result<Items<Token>, TokenRefusal>
    requires { size text.now < 2 ^ 64 }
    ensures ok { IfOk result (λ ts. cut_from false 0 0 text.now ≡ Ok ts) }
    ensures err { IfErr result (IsBadCut (cut_from false 0 0 text.now)) }
{
    let mut tokens = Items::new(alloc);
    let (mut rest, mut at) = after_blanks(text, 0);
    let mut nameless = 0;
    'tokens: while !rest.is_empty() {
        nameless = nameless_still(rest, nameless);
        let Some(found) = token_at(alloc, rest, nameless > 0)? else {
            return Err(TokenRefusal::Bad { at })
        };
        let (token, after) = rest.split_at(found.chars);
        let to = at + byte_len(token);
        tokens.push(Token {
            kind: found.kind,
            from: at,
            to,
        })?;
        let next = after_blanks(after, to);
        nameless = nameless_left(nameless, rest, next.0);
        rest = next.0;
        at = next.1;
    }
    Ok(tokens)
}

// The front of the text that is UTF-8.
fn sound_front(bytes: &[u8]) -> &str
    ensures { result.now ≡ sound_front bytes.now }
{
    match str::from_utf8(bytes) {
        Ok(text) => text,
        Err(e) => match str::from_utf8(&bytes[..e.valid_up_to()]) {
            Ok(front) => front,
            Err(_) => unreachable!(),
        },
    }
}

fn chars_of(alloc: Global, text: &str) -> Result<Vec<char>, AllocError>
    ensures { IfOk result (λ v. v.items ≡ chars text.now) }
{
    text.chars().collect(alloc)
}

/// Cuts a text into its tokens, taking the longest token at each place. Blanks and comments stand
/// between tokens (SPARQL 1.1 Query, section 19). What breaks UTF-8 is a bad place too.
#[tactic(auto, unfolding(sparql_meaning::specs::Cut::cut))]
pub fn tokens(alloc: Global, bytes: &[u8]) -> Result<Items<Token>, TokenRefusal>
    ensures ok { IfOk result (λ ts. cut bytes.now ≡ Ok ts) }
    ensures err { IfErr result (IsBadCut (cut bytes.now)) }
{
    let front = sound_front(bytes);
    let text = chars_of(alloc, front)?;
    let tokens = cut_chars(alloc, text.as_slice())?;
    if front.len() < bytes.len() {
        return Err(TokenRefusal::Bad { at: front.len() });
    }
    Ok(tokens)
}
