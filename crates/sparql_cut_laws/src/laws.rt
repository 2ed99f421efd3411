//! Laws that other crates may call upon.

ghost use Rattle.sparql_cut_laws.specs.EachAnswer.{AnswersAreCuts, BadPlacesAreAnswered, CutsAreAnswered};

use sparql_token_laws::texts_are_cut_by_longest_tokens;

/// Whatever `tokens` may answer by its contract for a text is its cut by longest tokens with blanks and comments between
/// them, or its first bad place, or want of memory.
pub fn answers_are_cuts()
    ensures { AnswersAreCuts }
{
    texts_are_cut_by_longest_tokens();
}

/// For a text with such a cut `tokens` may answer this alone, and for one with a first bad place that place alone, or want of
/// memory.
pub fn cuts_are_answered()
    ensures cut { CutsAreAnswered }
    ensures bad { BadPlacesAreAnswered }
{
    texts_are_cut_by_longest_tokens();
}
