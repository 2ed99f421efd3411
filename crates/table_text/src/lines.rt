//! Lines.

ghost use Rattle.std.specs.Prelude.{◌≡◌, ◌++◌, ◌<◌, [], length, MatchOption, IfSome, IsTrue};
ghost use Rattle.table_meaning.specs.CellText.{ended};
ghost use Rattle.table_text_meaning.specs.TableText.{lines_of};
ghost use Rattle.table_text.specs.Reading.{is_line};

use crate::fields::len_before;

/// The first line, without its end, and what follows it; none where no line feed comes.
pub fn split_line(bytes: &[u8]) -> Option<(&[u8], &[u8])>
    ensures cases { MatchOption result (lines_of bytes.now ≡ []) (λ x. IsTrue (is_line x.0.now) × (bytes.now ≡ ended x.0.now ++ x.1.now)) }
    ensures shorter { IfSome result (λ x. length x.1.now < length bytes.now) }
{
    let len = len_before(b'\n', bytes);
    if len >= bytes.len() {
        return None;
    }
    Some((&bytes[..len], &bytes[len + 1..]))
}
