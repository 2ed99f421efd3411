//! WITH and its steps, and the whole script.

ghost use Rattle.std.specs.Prelude.{◌≤◌, ◌<◌, [], IfOk, IfErr, length};
ghost use Rattle.sql_meaning.specs.Grammar.{WholeScript, Steps, OneStep, a_script, step_list, a_step};
ghost use Rattle.sql_text_cursor.specs.Outcomes.{Gets, Stops, MayStop};
ghost use Rattle.sql_text_script_laws.specs.Steps.{StepsAt};
ghost use Rattle.sql_text_script_laws.specs.Whole.{Rejects};

use sql_meaning::{Mark, Placed, Script, Step};
use sql_text_bodies::read_body;
use sql_text_cursor::{Refusal, after_mark, expect, next, read_name, stands};
use sqlite_items::Items;
use std::alloc::Global;

#[tactic(auto, using(sql_text_script_laws::specs::Steps::step_steps))]
fn read_step(alloc: Global, tokens: &[Placed]) -> Result<(Step, &[Placed]), Refusal>
    ensures reads { IfOk result (λ r. Gets OneStep tokens.now (a_step r.0) r.1.now) }
    ensures shorter { IfOk result (λ r. length r.1.now < length tokens.now) }
    ensures refuses { IfErr result (λ e. Stops OneStep tokens.now e) }
{
    let (name, rest) = read_name(alloc, tokens)?;
    let rest = expect(Mark::As, rest)?;
    let rest = expect(Mark::Open, rest)?;
    let (body, rest) = read_body(alloc, rest)?;
    let rest = expect(Mark::Close, rest)?;
    Ok((Step { name, body }, rest))
}

// WITH and one step or more.
#[tactic(auto, using(sql_text_script_laws::specs::Steps::steps_steps))]
fn read_steps(alloc: Global, tokens: &[Placed]) -> Result<(Items<Step>, &[Placed]), Refusal>
    ensures reads { IfOk result (λ r. Gets Steps tokens.now (step_list r.0) r.1.now) }
    ensures shorter { IfOk result (λ r. length r.1.now < length tokens.now) }
    ensures refuses { IfErr result (λ e. Stops Steps tokens.now e) }
{
    let rest = expect(Mark::With, tokens)?;
    let (step, mut rest) = read_step(alloc, rest)?;
    let mut steps = Items::new(alloc);
    steps.push(step)?;
    while let Some(after) = after_mark(Mark::Comma, rest) {
        let (step, after) = read_step(alloc, after)?;
        steps.push(step)?;
        rest = after;
    }
    Ok((steps, rest))
}

#[tactic(auto, using(sql_text_script_laws::specs::Steps::may_steps_steps))]
fn may_steps(alloc: Global, tokens: &[Placed]) -> Result<(Items<Step>, &[Placed]), Refusal>
    ensures reads { IfOk result (λ r. StepsAt tokens.now r.0 r.1.now) }
    ensures within { IfOk result (λ r. length r.1.now ≤ length tokens.now) }
    ensures refuses { IfErr result (λ e. MayStop Steps tokens.now e) }
{
    if !stands(Mark::With, tokens) {
        return Ok((Items::new(alloc), tokens));
    }
    let (steps, rest) = read_steps(alloc, tokens)?;
    Ok((steps, rest))
}

#[tactic(auto, using(sql_text_script_laws::specs::Steps::script_steps))]
fn read_front(alloc: Global, tokens: &[Placed]) -> Result<(Script, &[Placed]), Refusal>
    ensures reads { IfOk result (λ r. Gets WholeScript tokens.now (a_script r.0) r.1.now) }
    ensures refuses { IfErr result (λ e. Stops WholeScript tokens.now e) }
{
    let (steps, rest) = may_steps(alloc, tokens)?;
    let (last, rest) = read_body(alloc, rest)?;
    Ok((Script { steps, last }, rest))
}

/// Reads all the tokens as a script.
#[tactic(auto, using(sql_text_script_laws::specs::Whole::whole_steps))]
pub(crate) fn read_script(alloc: Global, tokens: &[Placed]) -> Result<Script, Refusal>
    ensures reads { IfOk result (λ script. Gets WholeScript tokens.now (a_script script) []) }
    ensures refuses { IfErr result (λ e. Rejects tokens.now e) }
{
    let (script, rest) = read_front(alloc, tokens)?;
    match next(rest) {
        None => Ok(script),
        Some(_) => Err(Refusal::Syntax { left: rest.len() }),
    }
}
