//! Expressions.
#![tactic(auto, using(rel_cells::specs::Fronts::kept_same, rel_cells::specs::Fronts::kept_append, rel_cells::specs::Fronts::kept_on))]

ghost use Rattle.std.specs.Prelude.{◌≡◌, ◌++◌, OnOk, map, codes};
ghost use Rattle.rel_cells.specs.Fronts.{KeepsFront};
ghost use Rattle.sql_text_spelling_laws.specs.Pieces.{expr_piece, list_piece, joined};
ghost use Rattle.sql_text_writer.specs.Levels.{branches_piece, branch_piece};

use crate::leaves::{write_name, write_null, write_text, write_truth};
use rel_cells::{CellView, write_cell};
use sql_meaning::{Branch, SqlExpr};
use std::alloc::AllocError;

/// An expression.
#[cycle(writing)]
#[tactic(auto, using(crate::specs::Levels::piece_levels, rel_cells::specs::Fronts::kept_same, rel_cells::specs::Fronts::kept_append, rel_cells::specs::Fronts::kept_on))]
pub fn write_expr(expr: &SqlExpr, into: &mut Vec<u8>) -> Result<(), AllocError>
    ensures ok { OnOk result (into.new.items ≡ into.old.items ++ expr_piece expr.now) }
    ensures kept { KeepsFront into.old.items into.new.items }
{
    match expr {
        SqlExpr::Name(alias, column) => write_name(alias, column, into)?,
        SqlExpr::Int(number) => write_cell(CellView::Int(*number), into)?,
        SqlExpr::Text(text) => write_text(text, into)?,
        SqlExpr::Truth(truth) => write_truth(*truth, into)?,
        SqlExpr::Null(kind) => write_null(*kind, into)?,
        SqlExpr::Equal(left, right) => {
            write_between(left.get(), b"(", b" = ", into)?;
            write_between(right.get(), b"", b")", into)?;
        }
        SqlExpr::Less(left, right) => {
            write_between(left.get(), b"(", b" < ", into)?;
            write_between(right.get(), b"", b")", into)?;
        }
        SqlExpr::All(parts) => write_list(parts.as_slice(), b"(", b" AND ", into)?,
        SqlExpr::Any(parts) => write_list(parts.as_slice(), b"(", b" OR ", into)?,
        SqlExpr::Not(part) => write_between(part.get(), b"(NOT ", b")", into)?,
        SqlExpr::IsNull(part) => write_between(part.get(), b"(", b" IS NULL)", into)?,
        SqlExpr::Case(branches, last) => {
            write_branches(branches.as_slice(), into)?;
            write_between(last.get(), b" ELSE ", b" END", into)?;
        }
        SqlExpr::First(parts) => write_list(parts.as_slice(), b"COALESCE(", b", ", into)?,
    }
    Ok(())
}

/// An expression with what stands before and behind it.
#[cycle(writing)]
pub fn write_between(
    expr: &SqlExpr,
    before: &[u8],
    after: &[u8],
    into: &mut Vec<u8>,
) -> Result<(), AllocError>
    ensures ok { OnOk result (into.new.items ≡ into.old.items ++ (before.now ++ (expr_piece expr.now ++ after.now))) }
    ensures kept { KeepsFront into.old.items into.new.items }
{
    into.extend_from_slice(before)?;
    write_expr(expr, into)?;
    into.extend_from_slice(after)?;
    Ok(())
}

#[cycle(writing)]
#[tactic(auto, using(crate::specs::Lists::left_at_first, rel_cells::specs::Fronts::kept_same, rel_cells::specs::Fronts::kept_append, rel_cells::specs::Fronts::kept_on))]
fn write_parts(parts: &[SqlExpr], separator: &[u8], into: &mut Vec<u8>) -> Result<(), AllocError>
    ensures ok { OnOk result (into.new.items ≡ into.old.items ++ joined separator.now (map expr_piece parts.now)) }
    ensures kept { KeepsFront into.old.items into.new.items }
{
    let mut before: &[u8] = b"";
    for part in parts {
        write_between(part, before, b"", into)?;
        before = separator;
    }
    Ok(())
}

// Parts between brackets.
#[cycle(writing)]
fn write_list(
    parts: &[SqlExpr],
    opening: &[u8],
    separator: &[u8],
    into: &mut Vec<u8>,
) -> Result<(), AllocError>
    ensures ok { OnOk result (into.new.items ≡ into.old.items ++ list_piece opening.now separator.now (map expr_piece parts.now)) }
    ensures kept { KeepsFront into.old.items into.new.items }
{
    into.extend_from_slice(opening)?;
    write_parts(parts, separator, into)?;
    into.push(b')')?;
    Ok(())
}

#[cycle(writing)]
fn write_branch(branch: &Branch, into: &mut Vec<u8>) -> Result<(), AllocError>
    ensures ok { OnOk result (into.new.items ≡ into.old.items ++ branch_piece branch.now) }
    ensures kept { KeepsFront into.old.items into.new.items }
{
    write_between(&branch.test, b" WHEN ", b" THEN ", into)?;
    write_expr(&branch.value, into)?;
    Ok(())
}

// CASE and its branches.
#[cycle(writing)]
fn write_branches(branches: &[Branch], into: &mut Vec<u8>) -> Result<(), AllocError>
    ensures ok { OnOk result (into.new.items ≡ into.old.items ++ (codes "CASE" ++ branches_piece branches.now)) }
    ensures kept { KeepsFront into.old.items into.new.items }
{
    into.extend_from_slice(b"CASE")?;
    for branch in branches {
        write_branch(branch, into)?;
    }
    Ok(())
}
