use crate::meeting::make_meeting;
use rel_cells::{Cell, Row};
use sql_bind_meaning::{BoundBody, BoundCore, BoundExpr, BoundJoin, BoundScript};
use sql_engine::bound_rows_of;
use sqlite_items::{Boxed, Items};
use std::alloc::{AllocError, Global};
use std::test::Fail;
use table_text::read_tables;

fn itself(alloc: Global) -> Result<Items<BoundJoin>, AllocError> {
    let left = Boxed::new(alloc, BoundExpr::Cell(0, 0))?;
    let right = Boxed::new(alloc, BoundExpr::Cell(1, 0))?;
    let mut joins = Items::new(alloc);
    joins.push(BoundJoin {
        left: false,
        relation: 0,
        on: BoundExpr::Equal(left, right),
    })?;
    Ok(joins)
}

// SELECT u.a AS a FROM T AS u JOIN T AS v ON (u.a = v.a)
fn joined_with_itself(alloc: Global) -> Result<BoundScript, AllocError> {
    let mut items = Items::new(alloc);
    items.push(BoundExpr::Cell(0, 0))?;
    let mut cores = Items::new(alloc);
    cores.push(BoundCore {
        distinct: false,
        items,
        from: Some(0),
        joins: itself(alloc)?,
        condition: None,
        keys: Items::new(alloc),
        most: None,
        skip: None,
    })?;
    let steps = Items::new(alloc);
    let last = BoundBody { cores };
    Ok(BoundScript { steps, last })
}

// The table T with the ints 1 to 60,000, and no script.
fn counted(alloc: Global) -> Result<String, AllocError> {
    let mut text = String::from_str(alloc, "tables 1\ntable\tT\ta:int\n")?;
    for number in 1..60_001u32 {
        let line = format!(in alloc; "{number}\n")?;
        text.push_str(line.as_str())?;
    }
    text.push_str("-- sql\n")?;
    Ok(text)
}

// Whether the rows are 1 to so many, in order.
fn are_counted(rows: &[Row], count: usize) -> bool {
    let mut next: i128 = 1;
    for row in rows {
        match row.cells.as_slice() {
            [Cell::Int(number)] if *number == next => next = next.wrapping_add(1),
            _ => return false,
        }
    }
    rows.len() == count
}

#[test]
fn two_pieces_run_at_the_same_time(rt: HostRuntime) -> Result<(), Fail> {
    let alloc = rt.alloc();
    let tables = make_meeting(alloc)?;
    let script = joined_with_itself(alloc)?;
    let rows = bound_rows_of(&rt, alloc, &script, &tables, 2)?;
    assert!(rt; are_counted(&rows, 2));
    assert!(rt; tables.was_noted());
    Ok(())
}

#[test]
fn sixty_thousand_rows_are_joined_in_order(rt: HostRuntime) -> Result<(), Fail> {
    let alloc = rt.alloc();
    let text = counted(alloc)?;
    let script = joined_with_itself(alloc)?;
    let Ok(read) = read_tables(alloc, text.as_str().as_bytes()) else {
        return Err(Fail::new("the tables are not read"));
    };
    let rows = bound_rows_of(&rt, alloc, &script, &read.tables, 1)?;
    assert!(rt; are_counted(&rows, 60_000));
    let rows = bound_rows_of(&rt, alloc, &script, &read.tables, 7)?;
    assert!(rt; are_counted(&rows, 60_000));
    Ok(())
}
