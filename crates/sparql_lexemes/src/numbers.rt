//! The numbers behind LIMIT and OFFSET.

ghost use Rattle.std.specs.Prelude.{◌≡◌, ◌≤◌, length};
ghost use Rattle.sparql_query_meaning.specs.Lexemes.{digit, decimal, without_zeros, is_long, number_of};

/// The most digits of a number, without the zeros in front.
const MOST_DIGITS: usize = 18;

// The text without the zeros in front.
fn without_zeros(text: &[u8]) -> &[u8]
    ensures { result.now ≡ without_zeros text.now }
{
    let mut rest = text;
    'zeros: while let Some((first, after)) = rest.split_first() {
        if *first != b'0' {
            return rest;
        }
        rest = after;
    }
    rest
}

/// Whether a number has too many digits.
pub fn is_long(text: &[u8]) -> bool
    ensures { result ≡ is_long text.now }
{
    without_zeros(text).len() > MOST_DIGITS
}

fn digit(c: u8) -> u64
    ensures value { result ≡ digit c }
    ensures below { result ≤ 9 }
{
    if c.is_ascii_digit() {
        (c - b'0') as u64
    } else {
        0
    }
}

#[tactic(auto, using(crate::proofs::Decimals::decimal_paths))]
fn decimal(digits: &[u8]) -> u64
    requires { length digits.now ≤ 18 }
    ensures { result ≡ decimal 0 digits.now }
{
    let mut number = 0;
    let mut rest = digits;
    'digits: while let Some((first, after)) = rest.split_first() {
        number = 10 * number + digit(*first);
        rest = after;
    }
    number
}

/// The number of a text of digits; 0 where it has too many.
#[tactic(auto, using(crate::proofs::Decimals::zeros_add_nothing))]
pub(crate) fn number_of(text: &[u8]) -> u64
    ensures { result ≡ number_of text.now }
{
    let digits = without_zeros(text);
    if digits.len() > MOST_DIGITS {
        0
    } else {
        decimal(digits)
    }
}
