//! The tables and the script of a worked file, read and written again. Each step is a function without a contract, so that no
//! proof carries the whole story.

use sql_text::{read_sql, write_sql};
use std::alloc::{AllocError, Global};
use table_text::{read_tables, write_tables};

const TABLES: &str = "tables 1\ntable\tT\ta:int\tb:text\n1\t\"x\"\n.\t\"y\"\n";

const TABLES_AGAIN: &str = "tables 2\ntable\tT\ta:int\tb:text\n1\t\"x\"\n.\t\"y\"\n";

const SCRIPT: &str =
    "SELECT u.a AS a, v.b AS c FROM T AS u LEFT JOIN T AS v ON (u.a = v.a) ORDER BY u.b";

fn file(alloc: Global) -> Result<String, AllocError> {
    format!(in alloc; "{TABLES}-- sql\n{SCRIPT}\n")
}

fn tables_again(alloc: Global, text: &[u8]) -> Result<Option<Vec<u8>>, AllocError> {
    let Ok(read) = read_tables(alloc, text) else {
        return Ok(None);
    };
    let mut again = Vec::new(alloc);
    write_tables(&read.tables, &mut again)?;
    Ok(Some(again))
}

fn script_again(alloc: Global, text: &[u8]) -> Result<Option<Vec<u8>>, AllocError> {
    let Ok(script) = read_sql(alloc, text) else {
        return Ok(None);
    };
    let mut again = Vec::new(alloc);
    write_sql(&script, &mut again)?;
    Ok(Some(again))
}

// Tables are written as version 2.
#[test]
fn the_tables_are_written_again(rt: HostRuntime) -> Result<(), AllocError> {
    let alloc = rt.alloc();
    let file = file(alloc)?;
    let Some(again) = tables_again(alloc, file.as_str().as_bytes())? else {
        panic!(rt; "the tables are refused");
    };
    assert_eq!(rt; again.as_slice(), TABLES_AGAIN.as_bytes());
    Ok(())
}

// In its canonical spelling no line feed ends a script.
#[test]
fn the_script_is_written_again(rt: HostRuntime) -> Result<(), AllocError> {
    let alloc = rt.alloc();
    let file = file(alloc)?;
    let script = file
        .as_str()
        .as_bytes()
        .get(TABLES.len() + 7..)
        .unwrap_or_default();
    let Some(again) = script_again(alloc, script)? else {
        panic!(rt; "the script is refused");
    };
    assert_eq!(rt; again.as_slice(), SCRIPT.as_bytes());
    Ok(())
}
