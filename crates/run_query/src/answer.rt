//! The answer to a query over a store.

ghost use Rattle.std.specs.Prelude.{◌≡◌, ◌≤◌, [], length, IfOk, slice_index_or};
ghost use Rattle.layout_standing_meaning.specs.Stored.{stored_triples};
ghost use Rattle.run_query_meaning.specs.Answering.{query_text, shown_names};
ghost use Rattle.sparql_query_meaning.specs.Fragment.{OfFragment};

use answer_text::write_answers;
use query_meaning::{Query, VarId};
use rdf_layout::Store;
use rdf_meaning::{Text, text_of};
use run_compiled::query_script;
use run_script::answers_of;
use std::alloc::{AllocError, Global};
use std::thread::Threads;

// The name of a variable, which stands at its place among the names.
#[tactic(auto, using(crate::proofs::Names::named_at, crate::proofs::Names::unnamed_at))]
fn name_of(alloc: Global, names: &[Text], variable: VarId) -> Result<Text, AllocError>
    ensures { IfOk result (λ name. name ≡ slice_index_or names.now variable []) }
{
    match names.get(variable.number() as usize) {
        Some(name) => name.copy(alloc),
        None => text_of(alloc, ""),
    }
}

fn shown_names(alloc: Global, query: &Query) -> Result<Vec<Text>, AllocError>
    ensures { IfOk result (λ names. names.items ≡ shown_names query.now) }
{
    let mut names = Vec::new(alloc);
    for variable in query.modifiers.shown.as_slice() {
        names.push(name_of(alloc, query.names.as_slice(), *variable)?)?;
    }
    Ok(names)
}

// How many variables are shown. No memory holds names beyond the last number.
fn count_of(names: &[Text]) -> Result<u32, AllocError>
    ensures { IfOk result (λ count. count ≡ length names.now) }
{
    let Ok(count) = u32::try_from(names.len()) else {
        return Err(AllocError);
    };
    Ok(count)
}

/// The text of the answer to a query over the triples of a store: its script is run over the tables from its own text, and
/// its rows are read as the answer.
///
/// # Errors
///
/// Want of memory.
pub(crate) fn answer_over<R: Threads + Sync>(
    rt: &R,
    alloc: Global,
    store: &Store,
    query: &Query,
    pieces: u32,
) -> Result<Vec<u8>, AllocError>
    requires fragment { OfFragment query.now }
    requires some { 1 ≤ pieces }
    requires few { pieces ≤ 64 }
    ensures { IfOk result (λ text. text.items ≡ query_text query.now (stored_triples store.now)) }
{
    let script = query_script(alloc, store, query)?;
    let tables = store.tables(alloc)?;
    let shown = shown_names(alloc, query)?;
    let count = count_of(&shown)?;
    let answers = answers_of(rt, alloc, &script, &tables, count, pieces)?;
    let mut text = Vec::new(alloc);
    write_answers(&shown, &answers, &mut text)?;
    Ok(text)
}
