use super::*;
use std::alloc::{AllocError, Global};
use std::cmp::Ordering;
use std::test::Fail;

// Datatype, text, and class and value.
const CASES: &str = "\
integer|+1|3 1000000000
integer|000000000000000000001|3 1000000000
integer|1000000000000000000|7
integer|1 |8
integer|1.0|8
decimal|-0.5|3 -500000000
decimal|1.5000000000|3 1500000000
decimal|1.0000000005|7
decimal|5.|3 5000000000
decimal|.5|3 500000000
decimal|.|8
boolean|1|4 1
boolean|TRUE|8
float|1|7
string|1|5
byte|-128|3 -128000000000
byte|128|8
byte|1.0|8
nonNegativeInteger|-0|3 0
negativeInteger|0|8
unsignedLong|18446744073709551615|7
unsignedLong|18446744073709551616|8
dateTime|2024-01-01T00:00:00Z|9 1704067200000000000
dateTime|2024-01-01T01:00:00+01:00|9 1704067200000000000
dateTime|2024-01-01T00:00:00|9 1704067200000000000
dateTime|2023-12-31T23:59:59.5000000000Z|9 1704067199500000000
dateTime|0001-01-01T00:00:00Z|9 -62135596800000000000
dateTime|2000-02-29T00:00:00-14:00|9 951832800000000000
dateTime|1900-02-29T00:00:00Z|7
dateTime|2024-02-30T00:00:00Z|7
dateTime|0000-01-01T00:00:00Z|7
dateTime|10000-01-01T00:00:00Z|7
dateTime|2024-01-01T24:00:00Z|7
dateTime|2024-01-01T00:00:60Z|7
dateTime|2024-01-01T00:00:00+14:01|7
dateTime|2024-01-01T00:00:00+13:60|7
dateTime|2024-01-01T00:00:00.Z|7
dateTime|2024-01-01T00:00:00.1234567891|7
dateTime|2024-01-01T00:00:00Z |7
dateTime|2024-1-01T00:00:00Z|7
dateTime|2024-01-01|7
dateTime||7";

fn literal(alloc: Global, text: &str, datatype: &str) -> Result<Term, AllocError> {
    let iri = format!(in alloc; "http://www.w3.org/2001/XMLSchema#{datatype}")?;
    Ok(Term {
        kind: TermKind::Typed,
        text: text_of(alloc, text)?,
        aux: text_of(alloc, iri.as_str())?,
    })
}

fn class_and_value(alloc: Global, text: &str, datatype: &str) -> Result<String, AllocError> {
    let term = literal(alloc, text, datatype)?;
    match number_of(&term) {
        Some(value) => format!(in alloc; "{} {value}", class_of(&term)),
        None => format!(in alloc; "{}", class_of(&term)),
    }
}

fn comes_first(alloc: Global, text: &str, other: &str, datatype: &str) -> Result<bool, AllocError> {
    let first = literal(alloc, text, datatype)?;
    let second = literal(alloc, other, datatype)?;
    Ok(order(&first, &second) == Ordering::Less)
}

fn nines(alloc: Global, count: usize) -> Result<String, AllocError> {
    let mut text = String::new(alloc);
    for _ in 0..count {
        text.push('9')?;
    }
    Ok(text)
}

#[test]
fn classes_and_values(rt: HostRuntime) -> Result<(), Fail> {
    let alloc = rt.alloc();
    for line in CASES.lines() {
        let Some((datatype, rest)) = line.split_once('|') else {
            continue;
        };
        let Some((text, want)) = rest.split_once('|') else {
            continue;
        };
        let found = class_and_value(alloc, text, datatype)?;
        assert_eq!(rt; found.as_str(), want, "{line}");
    }
    let long = nines(alloc, 60_000)?;
    assert_eq!(rt;
        class_and_value(alloc, long.as_str(), "integer")?.as_str(),
        "7"
    );
    assert_eq!(rt;
        class_and_value(alloc, long.as_str(), "unsignedLong")?.as_str(),
        "8"
    );
    assert_eq!(rt;
        class_and_value(alloc, long.as_str(), "dateTime")?.as_str(),
        "7"
    );
    Ok(())
}

#[test]
fn order_and_spelling(rt: HostRuntime) -> Result<(), Fail> {
    let alloc = rt.alloc();
    assert!(rt; comes_first(alloc, "01", "1", "integer")?);
    assert!(rt; comes_first(alloc, "2", "10", "byte")?);
    assert!(rt;
        comes_first(
            alloc,
            "2024-01-01T00:00:00",
            "2023-12-31T23:00:00-02:00",
            "dateTime"
        )?
    );
    let mut into = Vec::new(alloc);
    write_term(&literal(alloc, "a\"\n\t", "string")?, &mut into)?;
    assert_eq!(rt; into.as_slice(), b"\"a\\\"\\n\\t\"".as_slice());
    Ok(())
}
