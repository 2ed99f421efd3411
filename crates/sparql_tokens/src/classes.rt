//! Which characters go on with what (SPARQL 1.1 Query, section 19.8).

ghost use Rattle.std.specs.Prelude.{◌≡◌};
ghost use Rattle.rdf_meaning.specs.Characters as characters;
ghost use Rattle.sparql_meaning.specs.Classes as classes;
ghost use Rattle.sparql_meaning.specs.Tokens.{is_tag_part};

fn is_between(low: u32, high: u32, c: char) -> bool
    ensures { result ≡ characters.is_between low high c }
{
    low <= c as u32 && c as u32 <= high
}

pub(crate) fn is_digit(c: char) -> bool
    ensures { result ≡ characters.is_digit c }
{
    is_between(48, 57, c)
}

pub(crate) fn is_letter(c: char) -> bool
    ensures { result ≡ characters.is_letter c }
{
    is_between(65, 90, c) || is_between(97, 122, c)
}

/// A letter of any alphabet.
pub(crate) fn is_base(c: char) -> bool
    ensures { result ≡ characters.is_base c }
{
    is_letter(c)
        || is_between(0xC0, 0xD6, c)
        || is_between(0xD8, 0xF6, c)
        || is_between(0xF8, 0x2FF, c)
        || is_between(0x370, 0x37D, c)
        || is_between(0x37F, 0x1FFF, c)
        || is_between(0x200C, 0x200D, c)
        || is_between(0x2070, 0x218F, c)
        || is_between(0x2C00, 0x2FEF, c)
        || is_between(0x3001, 0xD7FF, c)
        || is_between(0xF900, 0xFDCF, c)
        || is_between(0xFDF0, 0xFFFD, c)
        || is_between(0x10000, 0xEFFFF, c)
}

fn is_name_mark(c: char) -> bool
    ensures { result ≡ characters.is_name_mark c }
{
    c == '\u{B7}' || is_between(0x300, 0x36F, c) || is_between(0x203F, 0x2040, c)
}

pub(crate) fn is_blank(c: char) -> bool
    ensures { result ≡ classes.is_blank c }
{
    c == ' ' || c == '\t' || c == '\n' || c == '\r'
}

pub(crate) fn ends_line(c: char) -> bool
    ensures { result ≡ classes.ends_line c }
{
    c == '\n' || c == '\r'
}

/// A letter of any alphabet, or `_`.
pub(crate) fn is_start(c: char) -> bool
    ensures { result ≡ classes.is_start c }
{
    is_base(c) || c == '_'
}

/// What a variable's name goes on with.
pub(crate) fn is_variable_part(c: char) -> bool
    ensures { result ≡ classes.is_variable_part c }
{
    is_start(c) || is_digit(c) || is_name_mark(c)
}

/// What a name goes on with.
pub(crate) fn is_part(c: char) -> bool
    ensures { result ≡ classes.is_part c }
{
    is_variable_part(c) || c == '-'
}

pub(crate) fn is_word_part(c: char) -> bool
    ensures { result ≡ classes.is_word_part c }
{
    is_letter(c) || is_digit(c) || c == '_'
}

pub(crate) fn is_tag_part(c: char) -> bool
    ensures { result ≡ is_tag_part c }
{
    is_letter(c) || is_digit(c)
}

/// What stands in an IRI by itself.
pub(crate) fn is_iri_part(c: char) -> bool
    ensures { result ≡ classes.is_iri_part c }
{
    !(c <= ' '
        || c == '<'
        || c == '>'
        || c == '"'
        || c == '{'
        || c == '}'
        || c == '|'
        || c == '^'
        || c == '`'
        || c == '\\')
}

/// What stands in a text between such quotes by itself.
pub(crate) fn is_text_part(quote: char, c: char) -> bool
    ensures { result ≡ classes.is_text_part quote c }
{
    !(c == quote || c == '\\' || c == '\n' || c == '\r')
}

/// A digit of base sixteen.
pub(crate) fn is_hex(c: char) -> bool
    ensures { result ≡ classes.is_hex c }
{
    is_digit(c) || is_between(65, 70, c) || is_between(97, 102, c)
}

/// What a backslash keeps in a local name.
pub(crate) fn is_kept(c: char) -> bool
    ensures { result ≡ classes.is_kept c }
{
    is_between(36, 47, c)
        || c == '!'
        || c == '#'
        || c == ';'
        || c == '='
        || c == '?'
        || c == '@'
        || c == '_'
        || c == '~'
}
