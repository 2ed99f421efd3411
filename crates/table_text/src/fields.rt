//! The parts of a line.

ghost use Rattle.std.specs.Prelude.{◌≡◌, ◌∷◌, ◌+◌, ◌<◌, length};
ghost use Rattle.std.specs.List.{prefix_len};
ghost use Rattle.table_text.specs.Reading.{is_other, fields_of, fields_left, left_length};

// How many bytes stand before the first `stop`.
pub fn len_before(stop: u8, bytes: &[u8]) -> usize
    ensures { result ≡ prefix_len (is_other stop) bytes.now }
{
    for (i, byte) in bytes.iter().enumerate() {
        if *byte == stop {
            return i;
        }
    }
    bytes.len()
}

// The part before the first tab, and where a tab comes what follows it.
pub fn split_field(line: &[u8]) -> (&[u8], Option<&[u8]>)
    ensures fields { fields_of line.now ≡ result.0.now ∷ fields_left result.1 }
    ensures shorter { left_length result.1 < length line.now + 1 }
{
    let len = len_before(b'\t', line);
    if len >= line.len() {
        return (line, None);
    }
    (&line[..len], Some(&line[len + 1..]))
}
