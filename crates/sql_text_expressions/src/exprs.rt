//! Expressions with parts. An expression stands inside `level` others, and its parts inside one more.

ghost use Rattle.std.specs.Prelude.{◌≡◌, ◌≤◌, ◌<◌, ◌∷◌, [], IfOk, IfErr, length};
ghost use Rattle.sql_meaning.specs.Grammar.{Expr, Inner, Cases, Branches, OneBranch, Firsts, More, an_expr, a_branch, branch_list};
ghost use Rattle.sql_text_cursor.specs.Outcomes.{Fault, Gets, Stops};
ghost use Rattle.sql_text_expressions.specs.Exprs as exprs;
ghost use Rattle.sql_text_expressions.specs.Lists as lists;
ghost use Rattle.sql_meaning.specs.Grammar as grammar;
ghost use Rattle.sql_meaning.specs.Kinds.{a_mark};
ghost use Rattle.sql_meaning.specs.declared.token.Mark.TheVariants as m;
ghost use Rattle.sql_text_cursor.specs.Table.{NoneOf};

use crate::leaves::{read_null, read_simple};
use crate::start::{Start, start_of};
use sql_meaning::{Branch, Mark, Placed, Separator, SqlExpr};
use sql_text_cursor::{Refusal, after_mark, expect, stands};
use sqlite_items::{Boxed, Items};
use std::alloc::Global;

/// An expression stands inside fewer others than this.
const MOST_LEVELS: u32 = 1024;

/// Reads an expression that stands inside `level` others from the front of the tokens.
#[cycle(exprs)]
#[tactic(auto, using(crate::specs::Exprs::expr_steps))]
pub fn read_expr(
    alloc: Global,
    level: u32,
    tokens: &[Placed],
) -> Result<(SqlExpr, &[Placed]), Refusal>
    requires { level ≤ 1024 }
    ensures reads { IfOk result (λ r. Gets (Expr level) tokens.now (an_expr r.0) r.1.now) }
    ensures shorter { IfOk result (λ r. length r.1.now < length tokens.now) }
    ensures refuses { IfErr result (λ e. Stops (Expr level) tokens.now e) }
{
    let Some(start) = start_of(tokens) else {
        return Err(Refusal::Syntax { left: tokens.len() })
    };
    if level == MOST_LEVELS {
        return Err(Refusal::Deep);
    }
    match start {
        Start::Leaf => read_simple(alloc, tokens),
        Start::Null => read_null(tokens),
        Start::Brackets => read_brackets(alloc, level + 1, tokens),
        Start::Case => read_cases(alloc, level + 1, tokens),
        Start::First => read_firsts(alloc, level + 1, tokens),
    }
}

#[cycle(exprs)]
#[tactic(auto, using(crate::specs::Exprs::brackets_steps))]
fn read_brackets(
    alloc: Global,
    level: u32,
    tokens: &[Placed],
) -> Result<(SqlExpr, &[Placed]), Refusal>
    requires { level ≤ 1024 }
    ensures reads { IfOk result (λ r. exprs.BracketsAt level tokens.now r.0 r.1.now) }
    ensures shorter { IfOk result (λ r. length r.1.now < length tokens.now) }
    ensures refuses { IfErr result (λ e. Fault [] (exprs.brackets level) tokens.now e) }
{
    let rest = expect(Mark::Open, tokens)?;
    let (inner, rest) = read_inner(alloc, level, rest)?;
    let rest = expect(Mark::Close, rest)?;
    Ok((inner, rest))
}

// What stands in brackets.
#[cycle(exprs)]
#[tactic(auto, using(crate::specs::Exprs::inner_steps))]
fn read_inner(alloc: Global, level: u32, tokens: &[Placed]) -> Result<(SqlExpr, &[Placed]), Refusal>
    requires { level ≤ 1024 }
    ensures reads { IfOk result (λ r. Gets (Inner level) tokens.now (an_expr r.0) r.1.now) }
    ensures shorter { IfOk result (λ r. length r.1.now < length tokens.now) }
    ensures refuses { IfErr result (λ e. Stops (Inner level) tokens.now e) }
{
    if let Some(rest) = after_mark(Mark::Not, tokens) {
        let (part, rest) = read_expr(alloc, level, rest)?;
        return Ok((SqlExpr::Not(Boxed::new(alloc, part)?), rest));
    }
    let (first, rest) = read_expr(alloc, level, tokens)?;
    let (whole, rest) = read_tail(alloc, level, first, rest)?;
    Ok((whole, rest))
}

// What stands behind the first expression in brackets, and what they make.
#[cycle(exprs)]
#[tactic(auto, using(crate::specs::Exprs::tail_steps))]
fn read_tail(
    alloc: Global,
    level: u32,
    first: SqlExpr,
    tokens: &[Placed],
) -> Result<(SqlExpr, &[Placed]), Refusal>
    requires { level ≤ 1024 }
    ensures reads { IfOk result (λ r. exprs.Tail level tokens.now first r.0 r.1.now) }
    ensures shorter { IfOk result (λ r. length r.1.now < length tokens.now) }
    ensures refuses { IfErr result (λ e. exprs.TailStops level tokens.now e) }
{
    if stands(Mark::And, tokens) {
        let (parts, rest) = read_more(alloc, Separator::And, level, first, tokens)?;
        return Ok((SqlExpr::All(parts), rest));
    }
    if stands(Mark::Or, tokens) {
        let (parts, rest) = read_more(alloc, Separator::Or, level, first, tokens)?;
        return Ok((SqlExpr::Any(parts), rest));
    }
    read_pair(alloc, level, first, tokens)
}

// A comparison, or IS NULL.
#[cycle(exprs)]
#[tactic(auto, using(crate::specs::Exprs::pair_steps))]
fn read_pair(
    alloc: Global,
    level: u32,
    first: SqlExpr,
    tokens: &[Placed],
) -> Result<(SqlExpr, &[Placed]), Refusal>
    requires within { level ≤ 1024 }
    requires no_and { NoneOf (a_mark m.And ∷ []) tokens.now }
    requires no_or { NoneOf (a_mark m.Or ∷ []) tokens.now }
    ensures reads { IfOk result (λ r. exprs.Tail level tokens.now first r.0 r.1.now) }
    ensures shorter { IfOk result (λ r. length r.1.now < length tokens.now) }
    ensures refuses { IfErr result (λ e. exprs.TailStops level tokens.now e) }
{
    let first = Boxed::new(alloc, first)?;
    if let Some(rest) = after_mark(Mark::Equal, tokens) {
        let (second, rest) = read_boxed(alloc, level, rest)?;
        return Ok((SqlExpr::Equal(first, second), rest));
    }
    if let Some(rest) = after_mark(Mark::Less, tokens) {
        let (second, rest) = read_boxed(alloc, level, rest)?;
        return Ok((SqlExpr::Less(first, second), rest));
    }
    let Some(rest) = after_mark(Mark::Is, tokens) else {
        return Err(Refusal::Syntax { left: tokens.len() })
    };
    let rest = expect(Mark::Null, rest)?;
    Ok((SqlExpr::IsNull(first), rest))
}

#[cycle(exprs)]
#[tactic(auto, using(crate::specs::Lists::boxed_steps))]
fn read_boxed(
    alloc: Global,
    level: u32,
    tokens: &[Placed],
) -> Result<(Boxed<SqlExpr>, &[Placed]), Refusal>
    requires { level ≤ 1024 }
    ensures reads { IfOk result (λ r. Gets (Expr level) tokens.now (an_expr r.0) r.1.now) }
    ensures shorter { IfOk result (λ r. length r.1.now < length tokens.now) }
    ensures refuses { IfErr result (λ e. Stops (Expr level) tokens.now e) }
{
    let (expr, rest) = read_expr(alloc, level, tokens)?;
    Ok((Boxed::new(alloc, expr)?, rest))
}

fn separator_mark(separator: Separator) -> Mark
    ensures { result ≡ grammar.separator_mark separator }
{
    match separator {
        Separator::And => Mark::And,
        Separator::Or => Mark::Or,
        Separator::Comma => Mark::Comma,
    }
}

// The first expression, and one or more behind it, each behind the separator.
#[cycle(exprs)]
#[tactic(auto, using(crate::specs::Lists::more_steps))]
fn read_more(
    alloc: Global,
    separator: Separator,
    level: u32,
    first: SqlExpr,
    tokens: &[Placed],
) -> Result<(Items<SqlExpr>, &[Placed]), Refusal>
    requires { level ≤ 1024 }
    ensures reads { IfOk result (λ r. lists.MoreAt separator level first tokens.now r.0 r.1.now) }
    ensures shorter { IfOk result (λ r. length r.1.now < length tokens.now) }
    ensures refuses { IfErr result (λ e. Stops (More separator level) tokens.now e) }
{
    let mark = separator_mark(separator);
    let mut parts = Items::new(alloc);
    parts.push(first)?;
    let rest = expect(mark, tokens)?;
    let (part, mut rest) = read_expr(alloc, level, rest)?;
    parts.push(part)?;
    while let Some(after) = after_mark(mark, rest) {
        let (part, after) = read_expr(alloc, level, after)?;
        parts.push(part)?;
        rest = after;
    }
    Ok((parts, rest))
}

#[cycle(exprs)]
#[tactic(auto, using(crate::specs::Lists::branch_steps))]
fn read_branch(alloc: Global, level: u32, tokens: &[Placed]) -> Result<(Branch, &[Placed]), Refusal>
    requires { level ≤ 1024 }
    ensures reads { IfOk result (λ r. Gets (OneBranch level) tokens.now (a_branch r.0) r.1.now) }
    ensures shorter { IfOk result (λ r. length r.1.now < length tokens.now) }
    ensures refuses { IfErr result (λ e. Stops (OneBranch level) tokens.now e) }
{
    let rest = expect(Mark::When, tokens)?;
    let (test, rest) = read_expr(alloc, level, rest)?;
    let rest = expect(Mark::Then, rest)?;
    let (value, rest) = read_expr(alloc, level, rest)?;
    Ok((Branch { test, value }, rest))
}

#[cycle(exprs)]
#[tactic(auto, using(crate::specs::Lists::branches_steps))]
fn read_branches(
    alloc: Global,
    level: u32,
    tokens: &[Placed],
) -> Result<(Items<Branch>, &[Placed]), Refusal>
    requires { level ≤ 1024 }
    ensures reads { IfOk result (λ r. Gets (Branches level) tokens.now (branch_list r.0) r.1.now) }
    ensures shorter { IfOk result (λ r. length r.1.now < length tokens.now) }
    ensures refuses { IfErr result (λ e. Stops (Branches level) tokens.now e) }
{
    let (branch, mut rest) = read_branch(alloc, level, tokens)?;
    let mut branches = Items::new(alloc);
    branches.push(branch)?;
    'branches: while stands(Mark::When, rest) {
        let (branch, after) = read_branch(alloc, level, rest)?;
        branches.push(branch)?;
        rest = after;
    }
    Ok((branches, rest))
}

// CASE with its branches, and ELSE.
#[cycle(exprs)]
#[tactic(auto, using(crate::specs::Lists::tests_steps))]
fn read_tests(
    alloc: Global,
    level: u32,
    tokens: &[Placed],
) -> Result<(Items<Branch>, &[Placed]), Refusal>
    requires { level ≤ 1024 }
    ensures reads { IfOk result (λ r. lists.CasesAt level tokens.now r.0 r.1.now) }
    ensures shorter { IfOk result (λ r. length r.1.now < length tokens.now) }
    ensures refuses { IfErr result (λ e. Stops (Cases level) tokens.now e) }
{
    let rest = expect(Mark::Case, tokens)?;
    let (branches, rest) = read_branches(alloc, level, rest)?;
    let rest = expect(Mark::Else, rest)?;
    Ok((branches, rest))
}

#[cycle(exprs)]
#[tactic(auto, using(crate::specs::Lists::cases_steps))]
fn read_cases(alloc: Global, level: u32, tokens: &[Placed]) -> Result<(SqlExpr, &[Placed]), Refusal>
    requires { level ≤ 1024 }
    ensures reads { IfOk result (λ r. Gets (Cases level) tokens.now (an_expr r.0) r.1.now) }
    ensures shorter { IfOk result (λ r. length r.1.now < length tokens.now) }
    ensures refuses { IfErr result (λ e. Stops (Cases level) tokens.now e) }
{
    let (branches, rest) = read_tests(alloc, level, tokens)?;
    let (last, rest) = read_boxed(alloc, level, rest)?;
    let rest = expect(Mark::End, rest)?;
    Ok((SqlExpr::Case(branches, last), rest))
}

// COALESCE, and its first expression.
#[cycle(exprs)]
#[tactic(auto, using(crate::specs::Lists::first_steps))]
fn read_first(alloc: Global, level: u32, tokens: &[Placed]) -> Result<(SqlExpr, &[Placed]), Refusal>
    requires { level ≤ 1024 }
    ensures reads { IfOk result (λ r. lists.FirstsAt level tokens.now r.0 r.1.now) }
    ensures shorter { IfOk result (λ r. length r.1.now < length tokens.now) }
    ensures refuses { IfErr result (λ e. Stops (Firsts level) tokens.now e) }
{
    let rest = expect(Mark::Coalesce, tokens)?;
    let rest = expect(Mark::Open, rest)?;
    let (first, rest) = read_expr(alloc, level, rest)?;
    Ok((first, rest))
}

#[cycle(exprs)]
#[tactic(auto, using(crate::specs::Lists::firsts_steps))]
fn read_firsts(
    alloc: Global,
    level: u32,
    tokens: &[Placed],
) -> Result<(SqlExpr, &[Placed]), Refusal>
    requires { level ≤ 1024 }
    ensures reads { IfOk result (λ r. Gets (Firsts level) tokens.now (an_expr r.0) r.1.now) }
    ensures shorter { IfOk result (λ r. length r.1.now < length tokens.now) }
    ensures refuses { IfErr result (λ e. Stops (Firsts level) tokens.now e) }
{
    let (first, rest) = read_first(alloc, level, tokens)?;
    let (parts, rest) = read_more(alloc, Separator::Comma, level, first, rest)?;
    let rest = expect(Mark::Close, rest)?;
    Ok((SqlExpr::First(parts), rest))
}
