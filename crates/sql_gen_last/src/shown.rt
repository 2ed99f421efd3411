//! The columns of the last SELECT.

ghost use Rattle.std.specs.Prelude.{◌≡◌, ◌∷◌, ◌++◌, ◌+◌, [], IfOk, OnOk};
ghost use Rattle.sql_gen_answer_meaning.specs.Columns.{place_name};
ghost use Rattle.sql_gen_step_laws.specs.StepSelects.{one_item};
ghost use Rattle.sql_gen_last_laws.specs.LastSelect.{item_of, shown_items};

use crate::keys::term_cell;
use query_meaning::VarId;
use rdf_meaning::{Text, text_of};
use sql_gen_steps::ones;
use sql_meaning::Item;
use sqlite_items::Items;
use std::alloc::{AllocError, Global};

// A letter and the place.
fn place_name(alloc: Global, letter: &str, place: usize) -> Result<Text, AllocError>
    ensures { IfOk result (λ text. text ≡ place_name letter.now place) }
{
    let text = format!(in alloc; "{letter}{place}")?;
    text_of(alloc, text.as_str())
}

fn place_item(
    alloc: Global,
    place: usize,
    v: VarId,
    letter: &str,
    column: &str,
) -> Result<Item, AllocError>
    ensures { IfOk result (λ item. item ≡ item_of place v letter.now column.now) }
{
    let name = place_name(alloc, letter, place)?;
    let expr = term_cell(alloc, v, column)?;
    Ok(Item { expr, name })
}

// Class, text, and tag or datatype of the term of a variable.
fn push_place(
    alloc: Global,
    place: usize,
    v: VarId,
    items: &mut Items<Item>,
) -> Result<(), AllocError>
    ensures { OnOk result (items.new ≡ items.old ++ shown_items place (v ∷ [])) }
{
    items.push(place_item(alloc, place, v, "c", "cls")?)?;
    items.push(place_item(alloc, place, v, "t", "txt")?)?;
    items.push(place_item(alloc, place, v, "a", "aux")?)?;
    Ok(())
}

/// The one, and the columns of the shown variables, by their places from 1.
pub(crate) fn last_items(alloc: Global, shown: &[VarId]) -> Result<Items<Item>, AllocError>
    ensures { IfOk result (λ items. items ≡ one_item ∷ shown_items 1 shown.now) }
{
    let mut items = ones(alloc)?;
    for (at, v) in shown.iter().enumerate() {
        push_place(alloc, at + 1, *v, &mut items)?;
    }
    Ok(items)
}
