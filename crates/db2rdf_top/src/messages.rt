//! The lines on the error output.

ghost use Rattle.std.specs.Prelude.{◌≡◌, ◌++◌, ◌∷◌, [], IfOk, OnOk, ◌⊎◌, codes, decimal};
ghost use Rattle.run_meaning.specs.Codes.{line_of, of_file, name_of, name_of_feature, text_of_query_fault, text_of_fault, in_select};
ghost use Rattle.run_outcome_meaning.specs.Causes.{Told};
ghost use Rattle.db2rdf_top.specs.Endings.{NamesSomething};

use itoa::Buffer;
use rdf_meaning::Text;
use run_meaning::{QueryFault, SqlFault, Status, Which};
use sparql_meaning::Feature;
use std::alloc::{AllocError, Global};
use store_io::Sink;

const USAGE: &[u8] =
    b"db2rdf: usage: db2rdf query|show|plan [options] DATA... QUERY; stats [options] DATA...; exec [--pieces N] FILE; drill [options] N SEED\n";

const NO_MEMORY: &[u8] = b"db2rdf: no memory\n";

// The line of a read that failed.
fn read_fault_line(alloc: Global, name: &Text) -> Result<Vec<u8>, AllocError>
    ensures { IfOk result (λ text. text.items ≡ line_of (Status.ReadFault name.now)) }
{
    let mut text = Vec::from_slice(alloc, b"db2rdf: cannot read ")?;
    text.extend_from_slice(name.bytes())?;
    text.push(b'\n')?;
    Ok(text)
}

// A number in decimal.
fn write_number(number: u64, text: &mut Vec<u8>) -> Result<(), AllocError>
    ensures { OnOk result (text.new.items ≡ text.old.items ++ decimal number) }
{
    let mut buffer = Buffer::new();
    text.extend_from_slice(buffer.format(number).as_bytes())
}

// A line that ends with a number.
fn numbered_line(alloc: Global, front: &[u8], number: u64) -> Result<Vec<u8>, AllocError>
    ensures { IfOk result (λ text. text.items ≡ front.now ++ (decimal number ++ 10 ∷ [])) }
{
    let mut text = Vec::from_slice(alloc, front)?;
    write_number(number, &mut text)?;
    text.push(b'\n')?;
    Ok(text)
}

// Which data file a line stands in; the first one isn't named.
fn write_file(file: u32, text: &mut Vec<u8>) -> Result<(), AllocError>
    ensures { OnOk result (text.new.items ≡ text.old.items ++ of_file file) }
{
    if file == 0 {
        return Ok(());
    }
    text.extend_from_slice(b" of file ")?;
    write_number(u64::from(file), text)
}

// The line of a bad data line.
fn bad_data_line(alloc: Global, file: u32, line: u64) -> Result<Vec<u8>, AllocError>
    ensures { IfOk result (λ text. text.items ≡ line_of (Status.BadData file line)) }
{
    let mut text = Vec::from_slice(alloc, b"db2rdf: bad data at line ")?;
    write_number(line, &mut text)?;
    write_file(file, &mut text)?;
    text.push(b'\n')?;
    Ok(text)
}

// The line of a bad line of tables.
fn bad_tables_line(alloc: Global, line: u64) -> Result<Vec<u8>, AllocError>
    ensures { IfOk result (λ text. text.items ≡ line_of (Status.BadTables line)) }
{
    numbered_line(alloc, b"db2rdf: bad tables at line ", line)
}

// The line of a bad line of a colouring file.
fn bad_colouring_line(alloc: Global, line: u64) -> Result<Vec<u8>, AllocError>
    ensures { IfOk result (λ text. text.items ≡ line_of (Status.BadColouring line)) }
{
    numbered_line(alloc, b"db2rdf: bad colouring at line ", line)
}

// The name of what is left out of the fragment.
fn name_of_feature(feature: Feature) -> &'static str
    ensures { result.now ≡ name_of_feature feature }
{
    match feature {
        Feature::Graph => "Graph",
        Feature::Dataset => "Dataset",
        Feature::Service => "Service",
        Feature::Describe => "Describe",
        Feature::SubSelect => "SubSelect",
        Feature::Exists => "Exists",
        Feature::Bind => "Bind",
        Feature::Values => "Values",
        Feature::Minus => "Minus",
        Feature::Reduced => "Reduced",
        Feature::Having => "Having",
        Feature::GroupBy => "GroupBy",
        Feature::SelectExpression => "SelectExpression",
        Feature::Base => "Base",
        Feature::Ask => "Ask",
        Feature::Construct => "Construct",
        Feature::Update => "Update",
        Feature::Aggregate => "Aggregate",
        Feature::Function => "Function",
        Feature::Brackets => "Brackets",
        Feature::BlankNode => "BlankNode",
        Feature::Double => "Double",
        Feature::LongText => "LongText",
        Feature::Operator => "Operator",
        Feature::Path => "Path",
        Feature::Not => "Not",
        Feature::TruthOperand => "TruthOperand",
    }
}

// Words and a place.
fn write_at(words: &[u8], at: usize, text: &mut Vec<u8>) -> Result<(), AllocError>
    ensures { OnOk result (text.new.items ≡ text.old.items ++ (words.now ++ decimal at)) }
{
    text.extend_from_slice(words)?;
    write_number(at as u64, text)
}

// Words, a name, and words with a place.
fn write_named_at(
    words: &[u8],
    name: &str,
    before: &[u8],
    at: usize,
    text: &mut Vec<u8>,
) -> Result<(), AllocError>
    ensures { OnOk result (text.new.items ≡ text.old.items ++ (words.now ++ (name.now ++ (before.now ++ decimal at)))) }
{
    text.extend_from_slice(words)?;
    text.extend_from_slice(name.as_bytes())?;
    write_at(before, at, text)
}

fn write_query_fault(why: QueryFault, text: &mut Vec<u8>) -> Result<(), AllocError>
    ensures { OnOk result (text.new.items ≡ text.old.items ++ text_of_query_fault why) }
{
    match why {
        QueryFault::NotInFragment { feature, at } => {
            let name = name_of_feature(feature);
            write_named_at(b"not in fragment: ", name, b" at ", at, text)
        }
        QueryFault::Syntax { at } => write_at(b"syntax at ", at, text),
        QueryFault::UnknownPrefix { at } => write_at(b"unknown prefix at ", at, text),
    }
}

// The line of a query that is refused.
fn bad_query_line(alloc: Global, why: QueryFault) -> Result<Vec<u8>, AllocError>
    ensures { IfOk result (λ text. text.items ≡ line_of (Status.BadQuery why)) }
{
    let mut text = Vec::from_slice(alloc, b"db2rdf: bad query: ")?;
    write_query_fault(why, &mut text)?;
    text.push(b'\n')?;
    Ok(text)
}

fn write_select(select: u64, text: &mut Vec<u8>) -> Result<(), AllocError>
    ensures { OnOk result (text.new.items ≡ text.old.items ++ (codes " in select " ++ decimal select)) }
{
    text.extend_from_slice(b" in select ")?;
    write_number(select, text)
}

// A word for a fault of binding, and its SELECT.
fn write_in_select(word: &str, select: u64, text: &mut Vec<u8>) -> Result<(), AllocError>
    ensures { OnOk result (text.new.items ≡ text.old.items ++ in_select word.now select) }
{
    text.extend_from_slice(word.as_bytes())?;
    write_select(select, text)
}

fn write_fault(why: SqlFault, text: &mut Vec<u8>) -> Result<(), AllocError>
    ensures { OnOk result (text.new.items ≡ text.old.items ++ text_of_fault why) }
{
    match why {
        SqlFault::Syntax { at } => {
            text.extend_from_slice(b"syntax at ")?;
            write_number(at as u64, text)
        }
        SqlFault::Deep => text.extend_from_slice(b"too deep"),
        SqlFault::NoTable { select } => write_in_select("no table", select, text),
        SqlFault::NoColumn { select } => write_in_select("no column", select, text),
        SqlFault::Twice { select } => write_in_select("twice", select, text),
        SqlFault::KindClash { select } => write_in_select("kind clash", select, text),
        SqlFault::NotTruth { select } => write_in_select("not truth", select, text),
    }
}

// The line of SQL that isn't run.
fn bad_sql_line(alloc: Global, why: SqlFault) -> Result<Vec<u8>, AllocError>
    ensures { IfOk result (λ text. text.items ≡ line_of (Status.BadSql why)) }
{
    let mut text = Vec::from_slice(alloc, b"db2rdf: bad sql: ")?;
    write_fault(why, &mut text)?;
    text.push(b'\n')?;
    Ok(text)
}

// The name of a limit.
fn name_of(which: Which) -> &'static str
    ensures { result.now ≡ name_of which }
{
    match which {
        Which::File => "file",
        Which::Line => "line",
        Which::Query => "query",
        Which::Patterns => "patterns",
        Which::Variables => "variables",
        Which::Groups => "groups",
        Which::Blocks => "blocks",
        Which::Depth => "depth",
        Which::Keys => "keys",
        Which::Digits => "digits",
        Which::Terms => "terms",
        Which::Triples => "triples",
    }
}

// The line of a limit that was passed.
fn limit_line(alloc: Global, which: Which) -> Result<Vec<u8>, AllocError>
    ensures { IfOk result (λ text. text.items ≡ line_of (Status.Limit which)) }
{
    let mut text = Vec::from_slice(alloc, b"db2rdf: limit: ")?;
    text.extend_from_slice(name_of(which).as_bytes())?;
    text.push(b'\n')?;
    Ok(text)
}

// Puts a line that was made, or says that there was no memory for it.
fn put_line<E: Sink>(line: Result<Vec<u8>, AllocError>, status: Status, err: &mut E) -> Status
    requires { IfOk line (λ text. text.items ≡ line_of status) }
    ensures status { (result ≡ status) ⊎ (result ≡ Status.NoMemory) }
    ensures told { Told result (E.written err.old) (E.written err.new) (E.faults err.old) (E.faults err.new) }
{
    match line {
        Ok(text) => {
            let _ = err.put(&text);
            status
        }
        Err(_) => {
            let _ = err.put(NO_MEMORY);
            Status::NoMemory
        }
    }
}

/// Puts the line of a status other than Done, by one put; where a line with a name finds no memory,
/// the answer is NoMemory. A failed put changes no status.
pub fn tell<E: Sink>(alloc: Global, status: Status, err: &mut E) -> Status
    ensures status { (result ≡ status) ⊎ (NamesSomething status × (result ≡ Status.NoMemory)) }
    ensures done { result ≡ Status.Done → E.written err.new ≡ E.written err.old }
    ensures told { (result ≡ Status.Done → ⊥) → Told result (E.written err.old) (E.written err.new) (E.faults err.old) (E.faults err.new) }
{
    match status {
        Status::Done => Status::Done,
        Status::Usage => {
            let _ = err.put(USAGE);
            Status::Usage
        }
        Status::BadData { file, line } => {
            put_line(
                bad_data_line(alloc, file, line),
                Status::BadData { file, line },
                err,
            )
        }
        Status::BadQuery { why } => {
            put_line(bad_query_line(alloc, why), Status::BadQuery { why }, err)
        }
        Status::Limit { which } => {
            put_line(limit_line(alloc, which), Status::Limit { which }, err)
        }
        Status::ReadFault { name } => {
            put_line(
                read_fault_line(alloc, &name),
                Status::ReadFault { name },
                err,
            )
        }
        Status::BadTables { line } => {
            put_line(
                bad_tables_line(alloc, line),
                Status::BadTables { line },
                err,
            )
        }
        Status::BadSql { why } => {
            put_line(bad_sql_line(alloc, why), Status::BadSql { why }, err)
        }
        Status::BadColouring { line } => {
            put_line(
                bad_colouring_line(alloc, line),
                Status::BadColouring { line },
                err,
            )
        }
        Status::WriteFault => {
            let _ = err.put(b"db2rdf: cannot write\n");
            Status::WriteFault
        }
        Status::NotYet => {
            let _ = err.put(b"db2rdf: not built yet\n");
            Status::NotYet
        }
        Status::NoMemory => {
            let _ = err.put(NO_MEMORY);
            Status::NoMemory
        }
    }
}
