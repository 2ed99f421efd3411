//! Columns by hashes computed apart, and the refusals.

use pred_columns::{ColourPair, ColumnRefusal, Columns};
use rdf_meaning::{Text, text_of};
use std::alloc::Global;
use std::test::Fail;

fn pair(alloc: Global, iri: &str, column: u32) -> Result<ColourPair, Fail> {
    Ok(ColourPair {
        iri: text_of(alloc, iri)?,
        column,
    })
}

// The hashes were computed by another program.
#[test]
fn candidates_are_hashes(rt: HostRuntime) -> Result<(), Fail> {
    for (count, hashes, iri, want) in [
        (2, 1, "u:p", [0u32].as_slice()),
        (2, 1, "u:q", [1].as_slice()),
        (2, 1, "u:r", [0].as_slice()),
        (2, 2, "u:q", [1, 0].as_slice()),
        (2, 4, "u:q", [1, 0].as_slice()),
        (8, 4, "u:p", [4, 1, 2, 7].as_slice()),
        (32, 4, "\u{e9}", [7, 28, 1, 30].as_slice()),
    ] {
        let columns = Columns::new(rt.alloc(), count, hashes, &[])?;
        let text = text_of(rt.alloc(), iri)?;
        let copy = columns.copy(rt.alloc())?;
        assert_eq!(rt; columns.candidates(&text).as_slice(), want);
        assert_eq!(rt; copy.candidates(&text).as_slice(), want);
    }
    Ok(())
}

#[test]
fn known_columns_are_refused_in_order(rt: HostRuntime) -> Result<(), Fail> {
    let known = [
        pair(rt.alloc(), "u:p", 1)?,
        pair(rt.alloc(), "u:q", 1)?,
        pair(rt.alloc(), "u:p", 2)?,
        pair(rt.alloc(), "u:r", 9)?,
    ];
    let columns = Columns::new(rt.alloc(), 2, 1, &known[..2])?;
    assert_eq!(rt;
        columns.candidates(&text_of(rt.alloc(), "u:p")?).as_slice(),
        [1u32].as_slice()
    );
    for (count, hashes, used, want) in [
        (33, 2, 0, ColumnRefusal::BadCount),
        (0, 5, 0, ColumnRefusal::BadCount),
        (2, 5, 0, ColumnRefusal::BadHashes),
        (2, 0, 4, ColumnRefusal::BadHashes),
        (8, 2, 4, ColumnRefusal::Repeated { at: 2 }),
        (1, 2, 4, ColumnRefusal::OutOfRange { at: 0 }),
    ] {
        let refusal = Columns::new(rt.alloc(), count, hashes, &known[..used]).err();
        assert_eq!(rt; refusal, Some(want));
    }
    Ok(())
}
