//! What a store tells of its tables: spilled predicates, ids and counts.

use crate::stores::store_of;
use rdf_layout::Store;
use rdf_terms::{KnownDatatype, Term, TermKind, Text, text_of};
use std::alloc::{AllocError, Global};
use std::test::Fail;
use std::thread::Threads;

// An IRI, or a string where the text begins with a quote.
fn term_of(alloc: Global, text: &str) -> Result<Term, AllocError> {
    if text.starts_with('"') {
        return Ok(Term {
            kind: TermKind::Typed,
            text: text_of(alloc, text.trim_matches('"'))?,
            aux: Text::known(KnownDatatype::String),
        });
    }
    Ok(Term {
        kind: TermKind::Iri,
        text: text_of(alloc, text)?,
        aux: text_of(alloc, "")?,
    })
}

// The terms of a text, with a blank between two.
fn terms_of(alloc: Global, words: &str) -> Result<Vec<Term>, AllocError> {
    let mut terms = Vec::new(alloc);
    for word in words.split(' ') {
        if !word.is_empty() {
            terms.push(term_of(alloc, word)?)?;
        }
    }
    Ok(terms)
}

fn push_terms(text: &mut String, terms: &[Term]) -> Result<(), AllocError> {
    for term in terms {
        text.push(' ')?;
        text.push_str(term.text.as_str())?;
    }
    Ok(())
}

// The spilled predicates out of given ones, those of the direct side first.
fn spilled(alloc: Global, store: &Store, words: &str) -> Result<String, AllocError> {
    let terms = terms_of(alloc, words)?;
    let facts = store.facts(alloc, terms.as_slice())?;
    let spilled = facts.spilled;
    let mut text = String::new(alloc);
    push_terms(&mut text, spilled.direct.as_slice())?;
    text.push_str(" |")?;
    push_terms(&mut text, spilled.reverse.as_slice())?;
    Ok(text)
}

fn push_number(text: &mut String, number: u64) -> Result<(), AllocError> {
    write!(text, " {number}")
}

fn ids(alloc: Global, store: &Store, words: &str) -> Result<String, AllocError> {
    let terms = terms_of(alloc, words)?;
    let ids = store.ids(alloc, terms.as_slice())?;
    let mut text = String::new(alloc);
    for pair in ids.pairs.as_slice() {
        push_number(&mut text, u64::from(pair.id))?;
    }
    Ok(text)
}

// Triples, subjects and objects, and of each term how often it is the subject and the object.
fn counts(alloc: Global, store: &Store, words: &str) -> Result<String, AllocError> {
    let terms = terms_of(alloc, words)?;
    let counts = store.counts(alloc, terms.as_slice())?;
    let mut text = format!(in alloc;
        " {} {} {}",
        counts.triples, counts.subjects, counts.objects
    )?;
    for count in counts.constants.as_slice() {
        push_number(&mut text, count.as_subject)?;
        push_number(&mut text, count.as_object)?;
    }
    Ok(text)
}

const BULK: &str =
    "<u:a> <u:p> \"1\" .\n<u:a> <u:q> \"2\" .\n<u:b> <u:q> \"2\" .\n<u:b> <u:q> <u:a> .\n";

// A store of the bulk, after later changes and by a way of colouring, and the words and what is told of them. A case is
// `LATER~WAY~WORDS~TOLD`.
fn store_and_words<'a, R: Threads + Sync>(
    rt: &R,
    alloc: Global,
    case: &'a str,
) -> Result<(Store, &'a str, &'a str), Fail> {
    let mut fields = case.split('~');
    let later = fields.next().unwrap_or("");
    let store = store_of(rt, alloc, BULK, later, "2 8 2", fields.next().unwrap_or(""))?;
    let words = fields.next().unwrap_or("");
    Ok((store, words, fields.next().unwrap_or("")))
}

#[test]
fn spilled_predicates_are_told(rt: HostRuntime) -> Result<(), Fail> {
    for case in [
        "~D <u:p> 1\nD <u:q> 1\n~u:p u:q~ u:q |",
        "~D <u:p> 1\nD <u:q> 1\n~u:q u:x u:q \"1\" u:p~ u:q |",
        "~D <u:p> 1\nD <u:q> 1\n~~ |",
        "~greedy~u:p u:q~ |",
        "D <u:a> <u:p> \"1\" .\n~D <u:p> 1\nD <u:q> 1\n~u:p u:q~ |",
        "<u:b> <u:p> \"2\" .\n~D <u:p> 1\nD <u:q> 1\n~u:q u:p~ u:q u:p |",
    ] {
        let (store, words, want) = store_and_words(&rt, rt.alloc(), case)?;
        assert_eq!(rt;
            spilled(rt.alloc(), &store, words)?.as_str(),
            want,
            "{case}"
        );
    }
    Ok(())
}

#[test]
fn ids_are_told(rt: HostRuntime) -> Result<(), Fail> {
    for case in [
        "D <u:a> <u:p> \"1\" .\n~greedy~~",
        "D <u:a> <u:p> \"1\" .\n~greedy~u:a u:p \"1\" u:q \"2\" u:b~ 1 2 3 4 5 6",
        "D <u:a> <u:p> \"1\" .\n~greedy~u:b u:x u:b 1~ 6 0 6 0",
    ] {
        let (store, words, want) = store_and_words(&rt, rt.alloc(), case)?;
        assert_eq!(rt; ids(rt.alloc(), &store, words)?.as_str(), want, "{case}");
    }
    Ok(())
}

#[test]
fn triples_are_counted(rt: HostRuntime) -> Result<(), Fail> {
    for case in [
        "~hashed~~ 4 2 3",
        "~hashed~u:a \"2\"~ 4 2 3 2 1 0 2",
        "~hashed~u:q u:x u:a~ 4 2 3 0 0 0 0 2 1",
        // Terms stay where their triples go, and count no more.
        "D <u:a> <u:p> \"1\" .\n~hashed~\"1\" u:a~ 3 2 2 0 0 1 1",
        "D <u:a> <u:p> \"1\" .\nD <u:a> <u:q> \"2\" .\n~hashed~u:a~ 2 1 2 0 1",
        "<u:a> <u:p> \"1\" .\n<u:a> <u:p> \"3\" .\n~hashed~u:a~ 5 2 4 3 1",
    ] {
        let (store, words, want) = store_and_words(&rt, rt.alloc(), case)?;
        assert_eq!(rt; counts(rt.alloc(), &store, words)?.as_str(), want, "{case}");
    }
    Ok(())
}
