//! Characters of a line, and its fronts.

ghost use Rattle.std.specs.Prelude.{◌≡◌, ◌≤◌, length, option_map};
ghost use Rattle.std.specs.List.{prefix_len};
ghost use Rattle.line_meaning.specs.Characters.{is_blank};
ghost use Rattle.line_meaning.specs.Reader.{after_blanks, after_char, starts, is_end};

pub(crate) fn is_blank(c: char) -> bool
    ensures { result ≡ is_blank c }
{
    c == ' ' || c == '\t'
}

// How many blanks stand at the front.
fn count_blanks(chars: &[char]) -> usize
    ensures value { result ≡ prefix_len is_blank chars.now }
    ensures within { result ≤ length chars.now }
{
    for (i, c) in chars.iter().enumerate() {
        if !is_blank(*c) {
            return i;
        }
    }
    chars.len()
}

/// What follows the blanks at the front.
pub fn after_blanks(chars: &[char]) -> &[char]
    ensures { result.now ≡ after_blanks chars.now }
{
    &chars[count_blanks(chars)..]
}

/// What follows this character.
pub fn after_char(c: char, chars: &[char]) -> Option<&[char]>
    ensures { option_map (λ rest. rest.now) result ≡ after_char c chars.now }
{
    let (first, rest) = chars.split_first()?;
    if *first == c { Some(rest) } else { None }
}

/// Whether this character stands in front.
pub(crate) fn starts(c: char, chars: &[char]) -> bool
    ensures { result ≡ starts c chars.now }
{
    match chars.first() {
        Some(first) => *first == c,
        None => false,
    }
}

/// Whether nothing is left but a comment.
pub fn is_end(chars: &[char]) -> bool
    ensures { result ≡ is_end chars.now }
{
    match chars.first() {
        Some(first) => *first == '#',
        None => true,
    }
}
