//! The sides of a bulk.

ghost use Rattle.std.specs.Prelude.{◌≡◌, true, map, IfOk};
ghost use Rattle.std.specs.List.{AllByRecursion};
ghost use Rattle.bags.specs.Bag.{SameBag};
ghost use Rattle.layout_list_laws.specs.InOrder.{AreInOrder};
ghost use Rattle.layout_standing_meaning.specs.Sides.{turned};
ghost use Rattle.layout_standing_meaning.specs.Stored.{IsIdIn, IsStore, layout_of, triple_by, stored_triples, text_of_id};
ghost use Rattle.layout_standing_meaning.specs.Changes.{store_of};
ghost use Rattle.layout_bulk_meaning.specs.Bulk.{bulk_side};
ghost use Rattle.layout_columns_meaning.specs.BulkColours.{AreColumnsFor};
ghost use Rattle.layout_columns_meaning.specs.Layouts.{IsLayoutFor};
ghost use Rattle.layout_bulk_laws.specs.BulkStore.{bulk_sides, HaveCandidates};
ghost use Rattle.shredder.specs.Items.{item_of};
ghost use Rattle.rdf_layout.specs.Gathered.{AreStored, turned_placed};
ghost use Rattle.rdf_layout.specs.OneRow.{ColouredHaveOneRow};

use layout_bulk_laws::bulks_are_stores;
use layout_choice::LayoutChoice;
use layout_coloured_laws::coloured_entities_have_one_row;
use layout_columns::columns_for;
use layout_sides::TripleSides;
use pred_columns::Columns;
use primary_rows::Side;
use shredder::{Placed, shred};
use std::alloc::{AllocError, Global};
use std::thread::Threads;
use term_book::TermBook;

fn turned(placed: Placed) -> Placed
    ensures { result ≡ turned_placed placed }
{
    Placed {
        entity: placed.value,
        pred: placed.pred,
        value: placed.entity,
    }
}

/// Items as the reverse side has them.
fn all_turned(alloc: Global, placed: &[Placed]) -> Result<Vec<Placed>, AllocError>
    ensures { IfOk result (λ items. items.items ≡ map turned_placed placed.now) }
{
    placed.iter().map(|item| turned(*item)).collect(alloc)
}

// Each predicate has a column to go to.
fn have_candidates(columns: &Columns)
    ensures { HaveCandidates columns.now }
{
    let _ = columns.count();
}

/// The side of a bulk, with the columns that were chosen for it.
fn side_of<R: Threads + Sync>(
    rt: &R,
    alloc: Global,
    placed: &[Placed],
    book: &TermBook,
    chosen: &Columns,
    hashes: u32,
    greedy: bool,
    pieces: u32,
) -> Result<Side, AllocError>
    requires preds { AllByRecursion (λ x. IsIdIn book.now x.pred) (map item_of placed.now) }
    requires hashes { hashes ≡ chosen.now.hashes }
    ensures columns { IfOk result (λ s. AreColumnsFor greedy chosen.now (text_of_id book.now) (map item_of placed.now) s.columns) }
    ensures side { IfOk result (λ s. s ≡ bulk_side s.columns (text_of_id book.now) (map item_of placed.now)) }
    ensures some { IfOk result (λ s. HaveCandidates s.columns) }
{
    let columns = columns_for(alloc, placed, book, chosen, hashes, greedy)?;
    have_candidates(&columns);
    shred(rt, alloc, placed, book, columns, pieces)
}

/// Both sides of a bulk.
pub(crate) fn sides_of<R: Threads + Sync>(
    rt: &R,
    alloc: Global,
    placed: &[Placed],
    book: &TermBook,
    choice: &LayoutChoice,
    pieces: u32,
) -> Result<TripleSides, AllocError>
    requires stored { AreStored book.now (map item_of placed.now) }
    ensures layout { IfOk result (λ s. IsLayoutFor choice.now book.now (map item_of placed.now) (layout_of (store_of book.now s))) }
    ensures sides { IfOk result (λ s. s ≡ bulk_sides (layout_of (store_of book.now s)) book.now (map item_of placed.now)) }
    ensures store { IfOk result (λ s. IsStore (store_of book.now s)) }
    ensures triples { IfOk result (λ s. SameBag (stored_triples (store_of book.now s)) (map (triple_by book.now) (map item_of placed.now))) }
    ensures in_order { IfOk result AreInOrder }
    ensures one_row { IfOk result (λ s. choice.now.greedy ≡ true → ColouredHaveOneRow (store_of book.now s)) }
{
    bulks_are_stores();
    coloured_entities_have_one_row();
    let hashes = choice.hashes();
    let greedy = choice.is_greedy();
    let direct = side_of(
        rt,
        alloc,
        placed,
        book,
        choice.direct(),
        hashes,
        greedy,
        pieces,
    )?;
    let placed = all_turned(alloc, placed)?;
    let reverse = side_of(
        rt,
        alloc,
        placed.as_slice(),
        book,
        choice.reverse(),
        hashes,
        greedy,
        pieces,
    )?;
    Ok(TripleSides::of(direct, reverse))
}
