//! Answering the query of a text.

ghost use Rattle.std.specs.Prelude.{◌≡◌, ◌<◌, ◌^◌, List, length, map, IfOk, IfErr, OnOk, Ok, Err};
ghost use Rattle.colouring_file.specs.Colours.{colour_of};
ghost use Rattle.colouring_file_meaning.specs.ColourLines.{AreFit};
ghost use Rattle.line_change_meaning.specs.Present.{present};
ghost use Rattle.run_command_laws.specs.Ranges.{AreInRange};
ghost use Rattle.run_files_meaning.specs.Files.{judged_work};
ghost use Rattle.run_files_meaning.specs.Refusal.{RefusedAs};
ghost use Rattle.run_query_meaning.specs.Answering.{Answering, answering, AnswerAsks, FitsAnswer, query_text};
ghost use Rattle.sparql_query_meaning.specs.Fragment.{OfFragment};

use crate::answer::answer_over;
use colouring_file::ColourLine;
use line_change_meaning::Change;
use query_meaning::Query;
use run_meaning::{Options, Status};
use run_query_file::{load_status, query_asked};
use run_store::store_of;
use std::alloc::Global;
use std::thread::Threads;

// The text of the answer over what is present, or the limit that the changes pass.
#[tactic(auto, using(crate::proofs::Present::present_text, run_query_file::proofs::Loads::load_within, run_query_file::proofs::Loads::load_refused))]
fn answer_query<R: Threads + Sync>(
    rt: &R,
    alloc: Global,
    options: &Options,
    lines: Vec<ColourLine>,
    changes: Vec<Change>,
    query: &Query,
) -> Result<Vec<u8>, Status>
    requires in_range { AreInRange options.now }
    requires fit { AreFit options.now.columns options.now.reverse (map colour_of lines.items) }
    requires few { length changes.items < 2 ^ 62 }
    requires fragment { OfFragment query.now }
    ensures ok { IfOk result (λ text. text.items ≡ query_text query.now (present changes.items)) }
    ensures judged { OnOk result (judged_work changes.items (answering changes.items query.now) ≡ Ok (answering changes.items query.now)) }
    ensures refused { IfErr result (λ status. RefusedAs status (λ s. judged_work changes.items (answering changes.items query.now) ≡ Err s)) }
{
    match store_of(rt, alloc, options, lines, changes) {
        Ok(store) => Ok(answer_over(rt, alloc, &store, query, options.pieces)?),
        Err(refusal) => Err(load_status(refusal)),
    }
}

/// The text of the answer to the query of a text over what is present after the changes, or the status that they ask for: a
/// refusal of the text goes before the limits on triples and terms. The changes are held in tables under the layout that the
/// options ask for, with the lines of the colouring file, if they name one; the query is compiled into a script over these
/// tables, whose rows are the answer.
pub fn query_text<R: Threads + Sync>(
    rt: &R,
    alloc: Global,
    options: &Options,
    lines: Vec<ColourLine>,
    changes: Vec<Change>,
    text: &[u8],
) -> Result<Vec<u8>, Status>
    requires in_range { AreInRange options.now }
    requires fit { AreFit options.now.columns options.now.reverse (map colour_of lines.items) }
    requires few { length changes.items < 2 ^ 62 }
    ensures ok { IfOk result (λ answer. (work : Answering) × AnswerAsks changes.items text.now (Ok work) × FitsAnswer work answer.items) }
    ensures err { IfErr result (λ status. RefusedAs status (λ s. AnswerAsks changes.items text.now (Err s))) }
{
    let query = query_asked(alloc, text)?;
    answer_query(rt, alloc, options, lines, changes, &query)
}
