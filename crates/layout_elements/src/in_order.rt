//! The elements of the lists of a side, list by list.

ghost use Rattle.std.specs.Prelude.{◌≡◌, ◌+◌, ◌<◌, ◌^◌, ℕ, All, map, IfOk, OnOk, ◌++◌};
ghost use Rattle.std.specs.List.{flat_map};
ghost use Rattle.std.specs.Map.{keys_of};
ghost use Rattle.bags.specs.Bag.{total};
ghost use Rattle.layout_meaning.specs.Side.{elements_of};
ghost use Rattle.layout_meaning.specs.Sound.{names, times};
ghost use Rattle.layout_meaning.specs.Rows.{numbered_rows};
ghost use Rattle.primary_rows.specs.Cells.{pair_of};
ghost use Rattle.primary_rows.specs.Views.{seen_row};
ghost use Rattle.layout_standing_meaning.specs.Contents.{element_cells};
ghost use Rattle.layout_list_laws.specs.InOrder.{AreRising};
ghost use Rattle.layout_elements.specs.ElementRows.{named_list, element_row, IsListNumber};

use primary_rows::{Pair, RowView, Side};
use std::alloc::{AllocError, Global};
use value_lists::Lists;

/// The id of a list, and one of its elements.
#[derive(Clone, Copy, Debug, Drop)]
pub struct Element {
    pub list: i64,
    pub value: u32,
}

/// The number of the list that a pair names.
fn list_in(pair: Pair) -> Option<u64>
    ensures { result ≡ named_list (pair_of pair) }
{
    if pair.pred != 0 && pair.value < 0 {
        Some((-1 - pair.value) as u64)
    } else {
        None
    }
}

/// Puts the number of the list that a pair names behind others.
fn push_number(numbers: &mut Vec<u64>, pair: Pair) -> Result<(), AllocError>
    ensures { OnOk result ((n : ℕ) → times n numbers.new.items ≡ times n numbers.old.items + names n (pair_of pair)) }
{
    if let Some(number) = list_in(pair) {
        numbers.push(number)?;
    }
    Ok(())
}

/// Puts the numbers of the lists that the pairs of a row name behind others.
fn push_numbers(numbers: &mut Vec<u64>, pairs: &[Pair]) -> Result<(), AllocError>
    ensures { OnOk result ((n : ℕ) → times n numbers.new.items ≡ times n numbers.old.items + total (names n) (map pair_of pairs.now)) }
{
    for pair in pairs {
        push_number(numbers, *pair)?;
    }
    Ok(())
}

/// The numbers of the lists that rows name.
fn numbers_in(alloc: Global, rows: &[RowView<'_>]) -> Result<Vec<u64>, AllocError>
    ensures { IfOk result (λ numbers. (n : ℕ) → times n numbers.items ≡ total (λ r. total (names n) r.pairs) (map seen_row rows.now)) }
{
    let mut numbers = Vec::new(alloc);
    for row in rows {
        push_numbers(&mut numbers, row.cells)?;
    }
    Ok(numbers)
}

/// The numbers of the lists of a side, rising.
fn list_numbers(alloc: Global, side: &Side, rows: &[RowView<'_>]) -> Result<Vec<u64>, AllocError>
    requires rows { map seen_row rows.now ≡ numbered_rows side.now.state.entities }
    requires rising { AreRising side.now.state.lists }
    ensures { IfOk result (λ numbers. numbers.items ≡ keys_of side.now.state.lists) }
{
    let _ = side.lists();
    let mut numbers = numbers_in(alloc, rows)?;
    numbers.sort_unstable();
    Ok(numbers)
}

/// Puts the elements of a list behind others.
fn push_list(elements: &mut Vec<Element>, number: u64, values: &[u32]) -> Result<(), AllocError>
    requires { number < 2 ^ 62 }
    ensures { OnOk result (map element_row elements.new.items ≡ map element_row elements.old.items ++ element_cells (number, values.now)) }
{
    let list = -1 - number as i64;
    for value in values {
        elements.push(Element {
            list,
            value: *value,
        })?;
    }
    Ok(())
}

/// The elements of the lists with these numbers.
fn elements_of(alloc: Global, lists: &Lists, numbers: &[u64]) -> Result<Vec<Element>, AllocError>
    requires { All (λ n. IsListNumber lists.now n) numbers.now }
    ensures { IfOk result (λ elements. map element_row elements.items ≡ flat_map (λ n. element_cells (n, elements_of lists.now.lists n)) numbers.now) }
{
    let mut elements = Vec::new(alloc);
    for number in numbers {
        push_list(&mut elements, *number, lists.elements_in(*number))?;
    }
    Ok(elements)
}

/// The elements of the lists of a side, by falling id of the lists. These are the rows of the side.
pub fn elements(
    alloc: Global,
    side: &Side,
    rows: &[RowView<'_>],
) -> Result<Vec<Element>, AllocError>
    requires rows { map seen_row rows.now ≡ numbered_rows side.now.state.entities }
    requires rising { AreRising side.now.state.lists }
    ensures { IfOk result (λ elements. map element_row elements.items ≡ flat_map element_cells side.now.state.lists) }
{
    let numbers = list_numbers(alloc, side, rows)?;
    let lists = side.lists();
    let _next = lists.next_number();
    elements_of(alloc, lists, numbers.as_slice())
}
