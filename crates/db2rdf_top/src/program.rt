//! One run of the program.

ghost use Rattle.std.specs.Prelude.{◌≡◌, ◌≤◌, ◌<◌, ◌^◌, Ok, Err, IfOk, IfErr, OnOk, length, map, string_bytes};
ghost use Rattle.colouring_file_meaning.specs.ColourLines.{AreFit};
ghost use Rattle.colouring_file.specs.Colours.{colour_of};
ghost use Rattle.layout_placed_meaning.specs.Chosen.{IsCounted};
ghost use Rattle.run_meaning.specs.Limits.{most_data_files};
ghost use Rattle.run_meaning.specs.Words.{command_of};
ghost use Rattle.run_command_laws.specs.Ranges.{AreInRange, IsInRange, IsWithin};
ghost use Rattle.run_files_meaning.specs.Files.{judged_work};
ghost use Rattle.run_files_meaning.specs.Refusal.{RefusedAs};
ghost use Rattle.run_query_meaning.specs.Answering.{query_job};
ghost use Rattle.run_show_meaning.specs.Showing.{show_job};
ghost use Rattle.run_stats_meaning.specs.Counting.{counting, stats_job};
ghost use Rattle.run_exec_meaning.specs.Running.{exec_job};
ghost use Rattle.run_outcome_meaning.specs.Jobs.{job_of, job_asked};
ghost use Rattle.run_outcome_meaning.specs.Causes.{Says, Completes, Told};
ghost use Rattle.db2rdf_top.specs.Endings.{Makes, Puts};

use crate::messages::tell;
use colouring_file::ColourLine;
use line_change_meaning::Change;
use rdf_meaning::Text;
use rdf_triples::LoadRefusal;
use run_exec::script_text;
use run_files::{read_colours, read_data, read_query_files, read_text};
use run_meaning::{Command, MOST_FILE, Options, Status, Which};
use run_outcome_laws::commands_ask_once;
use run_query::query_text;
use run_show::show_text;
use run_stats::stats_text;
use run_words::command_of;
use std::alloc::Global;
use std::thread::Threads;
use store_io::{Shelf, Sink};

// The answer to a query. The options change no answer, but a colouring file is judged.
fn answer<R: Threads + Sync, F: Shelf>(
    rt: &R,
    alloc: Global,
    options: &Options,
    data_names: &[Text],
    query_name: &str,
    shelf: &mut F,
) -> Result<Vec<u8>, Status>
    requires in_range { AreInRange options.now }
    requires few { length data_names.now ≤ most_data_files }
    ensures { Makes (λ text. text.items) result (query_job options.now data_names.now query_name.now) (F.content shelf.old) (F.faults shelf.old) (F.faults shelf.new) }
{
    let files = read_query_files(alloc, options, data_names, query_name, shelf)?;
    query_text(rt, alloc, options, files.lines, files.changes, &files.text)
}

// The tables of the data files, and the script of a query over them.
fn show<R: Threads + Sync, F: Shelf>(
    rt: &R,
    alloc: Global,
    options: &Options,
    data_names: &[Text],
    query_name: &str,
    shelf: &mut F,
) -> Result<Vec<u8>, Status>
    requires in_range { AreInRange options.now }
    requires few { length data_names.now ≤ most_data_files }
    ensures { Makes (λ text. text.items) result (show_job options.now data_names.now query_name.now) (F.content shelf.old) (F.faults shelf.old) (F.faults shelf.new) }
{
    let files = read_query_files(alloc, options, data_names, query_name, shelf)?;
    show_text(rt, alloc, options, files.lines, files.changes, &files.text)
}

// The cells of the script of a file of tables and SQL.
fn run_script<R: Threads + Sync, F: Shelf>(
    rt: &R,
    alloc: Global,
    pieces: u32,
    name: &str,
    shelf: &mut F,
) -> Result<Vec<u8>, Status>
    requires { IsWithin 1 64 pieces }
    ensures { Makes (λ text. text.items) result (exec_job name.now) (F.content shelf.old) (F.faults shelf.old) (F.faults shelf.new) }
{
    let text = read_text(alloc, name, MOST_FILE, Which::File, shelf)?;
    script_text(rt, alloc, &text, pieces)
}

// The text of the statistics of changes, or the limit that they pass.
fn counted_text<R: Threads + Sync>(
    rt: &R,
    alloc: Global,
    options: &Options,
    lines: Vec<ColourLine>,
    changes: Vec<Change>,
) -> Result<Vec<u8>, Status>
    requires in_range { AreInRange options.now }
    requires fit { AreFit options.now.columns options.now.reverse (map colour_of lines.items) }
    requires few { length changes.items < 2 ^ 62 }
    ensures fits { IfOk result (λ text. IsCounted options.now (map colour_of lines.items) changes.items text.items) }
    ensures judged { OnOk result (judged_work changes.items (counting (map colour_of lines.items) changes.items) ≡ Ok (counting (map colour_of lines.items) changes.items)) }
    ensures refused { IfErr result (λ status. RefusedAs status (λ s. judged_work changes.items (counting (map colour_of lines.items) changes.items) ≡ Err s)) }
{
    match stats_text(rt, alloc, options, lines, changes) {
        Ok(text) => Ok(text),
        Err(LoadRefusal::NoMemory) => Err(Status::NoMemory),
        Err(LoadRefusal::Limit(which)) => Err(Status::Limit { which }),
    }
}

// What is counted of the tables of the changes of data files.
fn count_tables<R: Threads + Sync, F: Shelf>(
    rt: &R,
    alloc: Global,
    options: &Options,
    data_names: &[Text],
    shelf: &mut F,
) -> Result<Vec<u8>, Status>
    requires in_range { AreInRange options.now }
    requires few { length data_names.now ≤ most_data_files }
    ensures { Makes (λ text. text.items) result (stats_job options.now data_names.now) (F.content shelf.old) (F.faults shelf.old) (F.faults shelf.new) }
{
    let lines = read_colours(alloc, options, shelf)?;
    let changes = read_data(alloc, data_names, shelf)?;
    counted_text(rt, alloc, options, lines, changes)
}

fn perform<R: Threads + Sync, F: Shelf>(
    rt: &R,
    alloc: Global,
    command: &Command,
    shelf: &mut F,
) -> Result<Vec<u8>, Status>
    requires { IsInRange command.now }
    ensures { Makes (λ text. text.items) result (job_of command.now) (F.content shelf.old) (F.faults shelf.old) (F.faults shelf.new) }
{
    match command {
        Command::Query {
            options,
            data,
            query,
        } => answer(rt, alloc, options, data.names(), query.as_str(), shelf),
        Command::Show {
            options,
            data,
            query,
        } => show(rt, alloc, options, data.names(), query.as_str(), shelf),
        Command::Exec { pieces, file } => run_script(rt, alloc, *pieces, file.as_str(), shelf),
        Command::Stats { options, data } => count_tables(rt, alloc, options, data.names(), shelf),
        Command::Plan { .. } => Err(Status::NotYet),
        Command::Drill { .. } => Err(Status::NotYet),
    }
}

// The whole text that the words ask for.
fn asked_text<R: Threads + Sync, F: Shelf>(
    rt: &R,
    alloc: Global,
    words: &[String],
    shelf: &mut F,
) -> Result<Vec<u8>, Status>
    ensures { Makes (λ text. text.items) result (job_asked (command_of (map string_bytes words.now))) (F.content shelf.old) (F.faults shelf.old) (F.faults shelf.new) }
{
    match command_of(alloc, words) {
        Ok(Some(command)) => perform(rt, alloc, &command, shelf),
        Ok(None) => Err(Status::Usage),
        Err(_) => Err(Status::NoMemory),
    }
}

// Puts a text that is whole, where there is one.
fn put_text<O: Sink>(text: Result<Vec<u8>, Status>, out: &mut O) -> Status
    ensures put { IfOk text (λ t. Puts result t.items (O.written out.old) (O.written out.new) (O.faults out.old) (O.faults out.new)) }
    ensures none { IfErr text (λ status. (result ≡ status) × (O.written out.new ≡ O.written out.old)) }
{
    match text {
        Ok(text) => match out.put(&text) {
            Ok(()) => Status::Done,
            Err(_) => Status::WriteFault,
        },
        Err(status) => status,
    }
}

/// Does what the words ask for over the files that they name, and says on the error output what went
/// wrong. The whole text is made before the first put, so the output is unchanged under every status
/// but Done and WriteFault.
pub fn run<R: Threads + Sync, F: Shelf, O: Sink, E: Sink>(
    rt: &R,
    alloc: Global,
    words: &[String],
    shelf: &mut F,
    out: &mut O,
    err: &mut E,
) -> Status
    // What each status says of the words, the files and the output.
    ensures says { Says result (job_asked (command_of (map string_bytes words.now))) (F.content shelf.old)
        record { before = F.faults shelf.old; after = F.faults shelf.new; out_before = O.faults out.old; out_after = O.faults out.new }
        (O.written out.old) (O.written out.new) }
    // Where nothing failed, the status is the one that is owed, unless memory ran out.
    ensures complete { Completes result (job_asked (command_of (map string_bytes words.now))) (F.content shelf.old)
        record { before = F.faults shelf.old; after = F.faults shelf.new; out_before = O.faults out.old; out_after = O.faults out.new } }
    // The error output has the status's line, and nothing under Done.
    ensures silent { result ≡ Status.Done → E.written err.new ≡ E.written err.old }
    ensures told { (result ≡ Status.Done → ⊥) → Told result (E.written err.old) (E.written err.new) (E.faults err.old) (E.faults err.new) }
{
    commands_ask_once();
    let text = asked_text(rt, alloc, words, shelf);
    let status = put_text(text, out);
    tell(alloc, status, err)
}
