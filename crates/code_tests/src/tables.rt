//! The tables of stores as text, which changes change a store, and refused layouts.

use crate::stores::{change_by, chosen, store_of, tables_text};
use pred_columns::ColumnRefusal;
use rdf_layout::LayoutChoice;
use std::alloc::Global;
use std::test::Fail;
use std::thread::Threads;

// Each case is `BULK~LATER~DIRECT REVERSE HASHES~WAY~TEXT`, and the tables of its store hold the text.
const TABLES: [&str; 18] = [
    // Whole tables: the list of the bulk goes, and the later one has the next id.
    "<u:a> <u:p> \"1\" .\n<u:a> <u:p> \"2\" .\n~D <u:a> <u:p> \"1\" .\n<u:a> <u:p> \"3\" .\n~1 1 2~hashed~tables 2\ntable\tDPH\tentry:int\tspill:int\tpred1:int\tval1:int\n1\t0\t2\t-2\ntable\tDS\tlid:int\telm:int\n-2\t4\n-2\t5\ntable\tRPH\tentry:int\tspill:int\tpred1:int\tval1:int\n4\t0\t2\t1\n5\t0\t2\t1\ntable\tRS\tlid:int\telm:int\ntable\tTERM\tid:int\tcls:int\tnum:int\ttxt:text\taux:text\n1\t2\t.\t\"u:a\"\t\"\"\n2\t2\t.\t\"u:p\"\t\"\"\n3\t5\t.\t\"1\"\t\"http://www.w3.org/2001/XMLSchema#string\"\n4\t5\t.\t\"2\"\t\"http://www.w3.org/2001/XMLSchema#string\"\n5\t5\t.\t\"3\"\t\"http://www.w3.org/2001/XMLSchema#string\"\n",
    "<u:a> <u:p> \"1\" .\n<u:a> <u:p> \"2\" .\n~D <u:a> <u:p> \"1\" .\n<u:a> <u:p> \"3\" .\n~1 1 2~greedy~tables 2\ntable\tDPH\tentry:int\tspill:int\tpred1:int\tval1:int\n1\t0\t2\t-2\ntable\tDS\tlid:int\telm:int\n-2\t4\n-2\t5\ntable\tRPH\tentry:int\tspill:int\tpred1:int\tval1:int\n4\t0\t2\t1\n5\t0\t2\t1\ntable\tRS\tlid:int\telm:int\ntable\tTERM\tid:int\tcls:int\tnum:int\ttxt:text\taux:text\n1\t2\t.\t\"u:a\"\t\"\"\n2\t2\t.\t\"u:p\"\t\"\"\n3\t5\t.\t\"1\"\t\"http://www.w3.org/2001/XMLSchema#string\"\n4\t5\t.\t\"2\"\t\"http://www.w3.org/2001/XMLSchema#string\"\n5\t5\t.\t\"3\"\t\"http://www.w3.org/2001/XMLSchema#string\"\n",
    // Whole tables: the third predicate has no colour on the direct side, and spills by its hashes.
    "<u:a> <u:p> \"1\" .\n<u:a> <u:q> \"2\" .\n<u:a> <u:r> \"3\" .\n~~2 2 2~greedy~tables 2\ntable\tDPH\tentry:int\tspill:int\tpred1:int\tval1:int\tpred2:int\tval2:int\n1\t0\t2\t3\t4\t5\n1\t1\t6\t7\t.\t.\ntable\tDS\tlid:int\telm:int\ntable\tRPH\tentry:int\tspill:int\tpred1:int\tval1:int\tpred2:int\tval2:int\n3\t0\t2\t1\t.\t.\n5\t0\t4\t1\t.\t.\n7\t0\t6\t1\t.\t.\ntable\tRS\tlid:int\telm:int\ntable\tTERM\tid:int\tcls:int\tnum:int\ttxt:text\taux:text\n1\t2\t.\t\"u:a\"\t\"\"\n2\t2\t.\t\"u:p\"\t\"\"\n3\t5\t.\t\"1\"\t\"http://www.w3.org/2001/XMLSchema#string\"\n4\t2\t.\t\"u:q\"\t\"\"\n5\t5\t.\t\"2\"\t\"http://www.w3.org/2001/XMLSchema#string\"\n6\t2\t.\t\"u:r\"\t\"\"\n7\t5\t.\t\"3\"\t\"http://www.w3.org/2001/XMLSchema#string\"\n",
    // Whole tables: both predicates in one given column.
    "<u:a> <u:p> \"1\" .\n<u:a> <u:q> \"2\" .\n~~2 1 2~D <u:p> 1\nD <u:q> 1\n~tables 2\ntable\tDPH\tentry:int\tspill:int\tpred1:int\tval1:int\tpred2:int\tval2:int\n1\t0\t2\t3\t.\t.\n1\t1\t4\t5\t.\t.\ntable\tDS\tlid:int\telm:int\ntable\tRPH\tentry:int\tspill:int\tpred1:int\tval1:int\n3\t0\t2\t1\n5\t0\t4\t1\ntable\tRS\tlid:int\telm:int\ntable\tTERM\tid:int\tcls:int\tnum:int\ttxt:text\taux:text\n1\t2\t.\t\"u:a\"\t\"\"\n2\t2\t.\t\"u:p\"\t\"\"\n3\t5\t.\t\"1\"\t\"http://www.w3.org/2001/XMLSchema#string\"\n4\t2\t.\t\"u:q\"\t\"\"\n5\t5\t.\t\"2\"\t\"http://www.w3.org/2001/XMLSchema#string\"\n",
    // Rows of changes that are made one by one.
    "~<u:a> <u:p> \"1\" .\n<u:a> <u:q> \"2\" .\n<u:a> <u:r> \"3\" .\n~1 1 2~hashed~val1:int\n1\t0\t2\t3\n1\t1\t4\t5\n1\t2\t6\t7\ntable\tDS\t",
    "~<u:a> <u:p> \"1\" .\n<u:a> <u:q> \"2\" .\n<u:a> <u:r> \"3\" .\n~2 2 1~hashed~val2:int\n1\t0\t2\t3\t4\t5\n1\t1\t6\t7\t.\t.\ntable\tDS\t",
    "~<u:a> <u:p> \"1\" .\n<u:a> <u:q> \"2\" .\n<u:a> <u:r> \"3\" .\nD <u:a> <u:p> \"1\" .\n~1 1 2~hashed~val1:int\n1\t0\t4\t5\n1\t1\t6\t7\ntable\tDS\t",
    "~<u:a> <u:p> \"1\" .\n<u:a> <u:q> \"2\" .\n<u:a> <u:r> \"3\" .\nD <u:a> <u:p> \"1\" .\n~2 2 1~hashed~val2:int\n1\t0\t.\t.\t4\t5\n1\t1\t6\t7\t.\t.\ntable\tDS\t",
    "~<u:a> <u:p> \"1\" .\n<u:a> <u:q> \"2\" .\n<u:a> <u:r> \"3\" .\nD <u:a> <u:p> \"1\" .\n<u:a> <u:p> \"3\" .\n~1 1 2~hashed~val1:int\n1\t0\t4\t5\n1\t1\t6\t7\n1\t2\t2\t7\ntable\tDS\t",
    "~<u:a> <u:p> \"1\" .\n<u:a> <u:q> \"2\" .\n<u:a> <u:r> \"3\" .\nD <u:a> <u:p> \"1\" .\n<u:a> <u:p> \"3\" .\n~2 2 1~hashed~val2:int\n1\t0\t2\t7\t4\t5\n1\t1\t6\t7\t.\t.\ntable\tDS\t",
    // The row that became empty goes, and the later one closes up.
    "<u:a> <u:p> \"1\" .\n<u:a> <u:q> \"2\" .\n~D <u:a> <u:p> \"1\" .\n~2 8 2~D <u:p> 1\nD <u:q> 1\n~val2:int\n1\t0\t4\t5\t.\t.\ntable\tDS\t",
    // Given columns go before the order of the lines.
    "<u:a> <u:p> \"1\" .\n<u:a> <u:q> \"2\" .\n~~2 8 2~D <u:q> 1\nD <u:p> 2\nR <u:p> 1\n~val2:int\n1\t0\t4\t5\t2\t3\ntable\tDS\t",
    // Coloured rows.
    "<u:a> <u:p> \"1\" .\n<u:a> <u:q> \"2\" .\n~~2 8 2~greedy~val2:int\n1\t0\t2\t3\t4\t5\ntable\tDS\t",
    "<u:a> <u:p> \"1\" .\n<u:a> <u:q> \"2\" .\n<u:a> <u:r> \"3\" .\n~~3 8 2~greedy~val3:int\n1\t0\t2\t3\t4\t5\t6\t7\ntable\tDS\t",
    // The rare predicate has more neighbours, so it takes the first column; the others follow by their ids.
    "<u:a> <u:p> \"1\" .\n<u:a> <u:r> \"2\" .\n<u:b> <u:q> \"3\" .\n<u:b> <u:r> \"4\" .\n~~2 8 2~greedy~val2:int\n1\t0\t4\t5\t2\t3\n6\t0\t4\t9\t7\t8\ntable\tDS\t",
    // Only the bulk is coloured.
    "~<u:a> <u:p> \"1\" .\n<u:a> <u:q> \"2\" .\n~1 8 2~greedy~val1:int\n1\t0\t2\t3\n1\t1\t4\t5\ntable\tDS\t",
    // The lists of a bulk are numbered by their entities, and those of later triples by the time when they were made.
    "<u:a> <u:p> \"1\" .\n<u:b> <u:p> \"1\" .\n<u:b> <u:p> \"2\" .\n<u:a> <u:p> \"2\" .\n~~1 8 2~hashed~val1:int\n1\t0\t2\t-1\n4\t0\t2\t-2\ntable\tDS\t",
    "~<u:a> <u:p> \"1\" .\n<u:b> <u:p> \"1\" .\n<u:b> <u:p> \"2\" .\n<u:a> <u:p> \"2\" .\n~1 8 2~hashed~val1:int\n1\t0\t2\t-2\n4\t0\t2\t-1\ntable\tDS\t",
];

fn tables_hold<R: Threads + Sync>(rt: &R, alloc: Global, case: &str) -> Result<bool, Fail> {
    let mut fields = case.split('~');
    let bulk = fields.next().unwrap_or("");
    let later = fields.next().unwrap_or("");
    let numbers = fields.next().unwrap_or("");
    let way = fields.next().unwrap_or("");
    let store = store_of(rt, alloc, bulk, later, numbers, way)?;
    let text = String::from_utf8(tables_text(alloc, &store)?)?;
    Ok(text.as_str().contains(fields.next().unwrap_or("")))
}

#[test]
fn tables_are_written(rt: HostRuntime) -> Result<(), Fail> {
    for case in TABLES {
        assert!(rt; tables_hold(&rt, rt.alloc(), case)?, "{case}");
    }
    Ok(())
}

// Whether the last of these changes changes a store.
fn changes<R: Threads + Sync>(rt: &R, alloc: Global, data: &str) -> Result<bool, Fail> {
    let mut store = store_of(rt, alloc, "", "", "8 8 2", "hashed")?;
    Ok(change_by(alloc, &mut store, data)??)
}

#[test]
fn changes_change_something(rt: HostRuntime) -> Result<(), Fail> {
    for data in [
        "<u:a> <u:p> <u:b> .\n",
        "<u:a> <u:p> <u:b> .\n<u:b> <u:p> <u:a> .\n",
        "<u:a> <u:p> <u:b> .\nD <u:a> <u:p> <u:b> .\n",
    ] {
        assert!(rt; changes(&rt, rt.alloc(), data)?, "{data}");
    }
    Ok(())
}

#[test]
fn some_changes_change_nothing(rt: HostRuntime) -> Result<(), Fail> {
    for data in [
        "<u:a> <u:p> <u:b> .\n<u:a> <u:p> <u:b> .\n",
        "D <u:a> <u:p> <u:b> .\n",
        "<u:a> <u:p> <u:b> .\nD <u:b> <u:p> <u:a> .\n",
        "<u:a> <u:p> \"b\" .\nD <u:a> <u:p> \"b\"@en .\n",
    ] {
        assert!(rt; !changes(&rt, rt.alloc(), data)?, "{data}");
    }
    Ok(())
}

// The columns of both sides, the hashes, and whether a bulk is coloured.
fn numbers(alloc: Global, choice: &LayoutChoice) -> Result<String, Fail> {
    let text = format!(in alloc;
        "{} {} {} {}",
        choice.direct().count(),
        choice.reverse().count(),
        choice.hashes(),
        choice.is_greedy()
    )?;
    Ok(text)
}

// Each case is `DIRECT REVERSE HASHES~WAY~GREEDY`.
fn is_chosen(alloc: Global, case: &str) -> Result<bool, Fail> {
    let mut fields = case.split('~');
    let wanted = fields.next().unwrap_or("");
    let choice = chosen(alloc, wanted, fields.next().unwrap_or(""))??;
    let greedy = fields.next().unwrap_or("");
    let wanted = format!(in alloc; "{wanted} {greedy}")?;
    Ok(numbers(alloc, &choice)?.as_str() == wanted.as_str())
}

#[test]
fn columns_are_chosen(rt: HostRuntime) -> Result<(), Fail> {
    for case in [
        "1 32 2~greedy~true",
        "32 1 2~hashed~false",
        "2 2 2~~false",
        "2 1 2~D <u:p> 2\nR <u:p> 1\n~false",
    ] {
        assert!(rt; is_chosen(rt.alloc(), case)?, "{case}");
    }
    Ok(())
}

// Why there are no such columns. A case is `DIRECT REVERSE HASHES~WAY`.
fn refusal(alloc: Global, case: &str) -> Result<Option<ColumnRefusal>, Fail> {
    let (numbers, way) = case.split_once('~').unwrap_or((case, ""));
    Ok(chosen(alloc, numbers, way)?.err())
}

// The direct side is judged first; places go over the lines of one side, counted from 0.
#[test]
fn columns_are_refused(rt: HostRuntime) -> Result<(), Fail> {
    for (case, want) in [
        ("33 1 5~hashed", ColumnRefusal::BadCount),
        ("2 33 5~hashed", ColumnRefusal::BadHashes),
        ("2 33 2~hashed", ColumnRefusal::BadCount),
        ("0 8 2~greedy", ColumnRefusal::BadCount),
        ("8 33 2~greedy", ColumnRefusal::BadCount),
        (
            "2 33 2~R <u:p> 1\nD <u:p> 3\n",
            ColumnRefusal::OutOfRange { at: 0 },
        ),
        (
            "2 2 2~D <u:p> 1\nR <u:p> 2\nR <u:q> 3\n",
            ColumnRefusal::OutOfRange { at: 1 },
        ),
        (
            "8 1 2~D <u:p> 8\nD <u:q> 8\nR <u:q> 2\n",
            ColumnRefusal::OutOfRange { at: 0 },
        ),
    ] {
        assert_eq!(rt; refusal(rt.alloc(), case)?, Some(want), "{case}");
    }
    Ok(())
}
