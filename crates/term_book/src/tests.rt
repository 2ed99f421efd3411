use super::*;
use rdf_meaning::{Term, TermKind, text_of};
use std::alloc::{AllocError, Global};
use std::test::Fail;
use std::thread;

fn iri(alloc: Global, text: &str) -> Result<Term, AllocError> {
    Ok(Term {
        kind: TermKind::Iri,
        text: text_of(alloc, text)?,
        aux: text_of(alloc, "")?,
    })
}

// Numbers go from 1 in order of first noting, and pieces may share a book.
#[test]
fn numbers(rt: HostRuntime) -> Result<(), Fail> {
    let alloc = rt.alloc();
    let mut book = TermBook::new(alloc);
    assert_eq!(rt; book.count(), 0);
    for (text, want) in [("u:a", 1), ("u:b", 2), ("u:a", 1), ("", 3)] {
        let id = book.intern(alloc, &iri(alloc, text)?)?;
        assert_eq!(rt; id.number(), want, "{text}");
    }
    let last = iri(alloc, "")?;
    let Some(id) = book.find(&last) else {
        return Ok(assert!(rt; false));
    };
    assert_eq!(rt; book.term(id).text.as_str(), "");
    assert!(rt; book.find(&iri(alloc, "u:c")?).is_none());
    let seen = thread::map_indices(&rt, alloc, 2, &|_i| book.count())?;
    assert_eq!(rt; seen.as_slice(), [3, 3].as_slice());
    Ok(())
}
