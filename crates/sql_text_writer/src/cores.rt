//! One SELECT, or several.
#![tactic(auto, using(rel_cells::specs::Fronts::kept_same, rel_cells::specs::Fronts::kept_append, rel_cells::specs::Fronts::kept_on, crate::specs::Lists::left_at_first))]

ghost use Rattle.std.specs.Prelude.{◌≡◌, ◌++◌, OnOk, map, codes};
ghost use Rattle.rel_cells.specs.Fronts.{KeepsFront};
ghost use Rattle.sql_text_spelling_laws.specs.Pieces.{joined, behind, item_piece, join_piece, join_word, from_piece, where_piece, down_piece, key_piece, order_piece, distinct_piece, rest_piece, core_piece, body_piece};

use crate::exprs::{write_between, write_expr};
use crate::leaves::{write_count, write_source};
use sql_meaning::{Body, Core, Item, JoinTo, Source, SqlExpr, SqlKey};
use std::alloc::AllocError;

// A column of the answer, with what stands before it.
fn write_item(item: &Item, before: &[u8], into: &mut Vec<u8>) -> Result<(), AllocError>
    ensures ok { OnOk result (into.new.items ≡ into.old.items ++ (before.now ++ item_piece item.now)) }
    ensures kept { KeepsFront into.old.items into.new.items }
{
    write_between(&item.expr, before, b" AS ", into)?;
    into.extend_from_slice(item.name.bytes())?;
    Ok(())
}

fn write_items(items: &[Item], into: &mut Vec<u8>) -> Result<(), AllocError>
    ensures ok { OnOk result (into.new.items ≡ into.old.items ++ joined (codes ", ") (map item_piece items.now)) }
    ensures kept { KeepsFront into.old.items into.new.items }
{
    let mut before: &[u8] = b"";
    for item in items {
        write_item(item, before, into)?;
        before = b", ";
    }
    Ok(())
}

fn join_word(left: bool) -> &'static [u8]
    ensures { result.now ≡ codes " " ++ join_word left }
{
    if left { b" LEFT JOIN " } else { b" JOIN " }
}

// A join, with the space before it.
fn write_join(join: &JoinTo, into: &mut Vec<u8>) -> Result<(), AllocError>
    ensures ok { OnOk result (into.new.items ≡ into.old.items ++ (codes " " ++ join_piece join.now)) }
    ensures kept { KeepsFront into.old.items into.new.items }
{
    into.extend_from_slice(join_word(join.left))?;
    write_source(&join.source, into)?;
    write_between(&join.on, b" ON ", b"", into)?;
    Ok(())
}

fn write_joins(joins: &[JoinTo], into: &mut Vec<u8>) -> Result<(), AllocError>
    ensures ok { OnOk result (into.new.items ≡ into.old.items ++ behind (codes " ") (map join_piece joins.now)) }
    ensures kept { KeepsFront into.old.items into.new.items }
{
    for join in joins {
        write_join(join, into)?;
    }
    Ok(())
}

fn write_from(from: &Option<Source>, joins: &[JoinTo], into: &mut Vec<u8>) -> Result<(), AllocError>
    ensures ok { OnOk result (into.new.items ≡ into.old.items ++ from_piece from.now joins.now) }
    ensures kept { KeepsFront into.old.items into.new.items }
{
    if let Some(source) = from {
        into.extend_from_slice(b" FROM ")?;
        write_source(source, into)?;
        write_joins(joins, into)?;
    }
    Ok(())
}

fn write_where(condition: &Option<SqlExpr>, into: &mut Vec<u8>) -> Result<(), AllocError>
    ensures ok { OnOk result (into.new.items ≡ into.old.items ++ where_piece condition.now) }
    ensures kept { KeepsFront into.old.items into.new.items }
{
    if let Some(condition) = condition {
        write_between(condition, b" WHERE ", b"", into)?;
    }
    Ok(())
}

fn down_word(down: bool) -> &'static [u8]
    ensures { result.now ≡ down_piece down }
{
    if down { b" DESC" } else { b"" }
}

// A key, with what stands before it.
fn write_key(key: &SqlKey, before: &[u8], into: &mut Vec<u8>) -> Result<(), AllocError>
    ensures ok { OnOk result (into.new.items ≡ into.old.items ++ (before.now ++ key_piece key.now)) }
    ensures kept { KeepsFront into.old.items into.new.items }
{
    write_between(&key.expr, before, down_word(key.down), into)
}

fn write_keys(keys: &[SqlKey], into: &mut Vec<u8>) -> Result<(), AllocError>
    ensures ok { OnOk result (into.new.items ≡ into.old.items ++ order_piece keys.now) }
    ensures kept { KeepsFront into.old.items into.new.items }
{
    let mut before: &[u8] = b" ORDER BY ";
    for key in keys {
        write_key(key, before, into)?;
        before = b", ";
    }
    Ok(())
}

fn distinct_word(distinct: bool) -> &'static [u8]
    ensures { result.now ≡ codes "SELECT " ++ distinct_piece distinct }
{
    if distinct {
        b"SELECT DISTINCT "
    } else {
        b"SELECT "
    }
}

// What follows the items of a core.
fn write_rest(core: &Core, into: &mut Vec<u8>) -> Result<(), AllocError>
    ensures ok { OnOk result (into.new.items ≡ into.old.items ++ rest_piece core.now) }
    ensures kept { KeepsFront into.old.items into.new.items }
{
    write_from(&core.from, core.joins.as_slice(), into)?;
    write_where(&core.condition, into)?;
    write_keys(core.keys.as_slice(), into)?;
    write_count(b" LIMIT ", core.most, into)?;
    write_count(b" OFFSET ", core.skip, into)?;
    Ok(())
}

fn write_core(core: &Core, into: &mut Vec<u8>) -> Result<(), AllocError>
    ensures ok { OnOk result (into.new.items ≡ into.old.items ++ core_piece core.now) }
    ensures kept { KeepsFront into.old.items into.new.items }
{
    into.extend_from_slice(distinct_word(core.distinct))?;
    write_items(core.items.as_slice(), into)?;
    write_rest(core, into)?;
    Ok(())
}

// A core, with what stands before it.
fn write_core_behind(before: &[u8], core: &Core, into: &mut Vec<u8>) -> Result<(), AllocError>
    ensures ok { OnOk result (into.new.items ≡ into.old.items ++ (before.now ++ core_piece core.now)) }
    ensures kept { KeepsFront into.old.items into.new.items }
{
    into.extend_from_slice(before)?;
    write_core(core, into)?;
    Ok(())
}

fn write_cores(cores: &[Core], separator: &[u8], into: &mut Vec<u8>) -> Result<(), AllocError>
    ensures ok { OnOk result (into.new.items ≡ into.old.items ++ joined separator.now (map core_piece cores.now)) }
    ensures kept { KeepsFront into.old.items into.new.items }
{
    let mut before: &[u8] = b"";
    for core in cores {
        write_core_behind(before, core, into)?;
        before = separator;
    }
    Ok(())
}

/// A body.
pub fn write_body(body: &Body, into: &mut Vec<u8>) -> Result<(), AllocError>
    ensures ok { OnOk result (into.new.items ≡ into.old.items ++ body_piece body.now) }
    ensures kept { KeepsFront into.old.items into.new.items }
{
    write_cores(body.cores.as_slice(), b" UNION ALL ", into)
}
