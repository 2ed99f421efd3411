use super::*;
use rdf_meaning::TermKind;
use std::alloc::{AllocError, Global};
use std::test::Fail;

// How many changes a text has, or how it is refused.
fn outcome(alloc: Global, text: &[u8]) -> Result<String, AllocError> {
    match read_changes(alloc, text, 0) {
        Ok(changes) => format!(in alloc; "{}", changes.len()),
        Err(LineRefusal::NoMemory) => Err(AllocError),
        Err(refusal) => format!(in alloc; "{refusal}"),
    }
}

// A line may have 65,536 bytes, and on one line its length comes first.
#[test]
fn long_lines(rt: HostRuntime) -> Result<(), Fail> {
    let alloc = rt.alloc();
    let mut text = Vec::new(alloc);
    text.push(b'#')?;
    for _ in 0..65_535 {
        text.push(b'x')?;
    }
    assert_eq!(rt; outcome(alloc, &text)?.as_str(), "0");
    text.push(b'x')?;
    assert_eq!(rt;
        outcome(alloc, &text)?.as_str(),
        "line 1 has more than 65,536 bytes"
    );
    Ok(())
}

// The labels of the subject and the object of a file's first line.
fn labels(alloc: Global, text: &str, file: u32) -> Result<String, AllocError> {
    let Ok(changes) = read_changes(alloc, text.as_bytes(), file) else {
        return Err(AllocError);
    };
    let Some(Change::Add(triple)) = changes.first() else {
        return Err(AllocError);
    };
    format!(in alloc; "{} {}", triple.s.text.as_str(), triple.o.text.as_str())
}

// A label belongs to its file.
#[test]
fn labels_of_files(rt: HostRuntime) -> Result<(), Fail> {
    let alloc = rt.alloc();
    assert_eq!(rt;
        labels(alloc, "_:x <u:p> _:1.b .", 0)?.as_str(),
        "f0bx f0b1.b"
    );
    assert_eq!(rt;
        labels(alloc, "_:x <u:p> _:f0bx .", 15)?.as_str(),
        "f15bx f15bf0bx"
    );
    Ok(())
}
