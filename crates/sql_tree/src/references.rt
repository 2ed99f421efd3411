//! How often a script reads a primary table.

ghost use Rattle.std.specs.Prelude.{◌≡◌, map};
ghost use Rattle.sql_meaning.specs.Scripts as scripts;

use sql_meaning::{Body, Core, JoinTo, Script, Source, Step};

fn source_refs(source: &Source) -> u64
    ensures { result ≡ scripts.source_refs source.now }
{
    if source.table.as_str() == "DPH" || source.table.as_str() == "RPH" {
        1
    } else {
        0
    }
}

fn joins_refs(joins: &[JoinTo]) -> u64
    ensures { result ≡ scripts.up_to 64 (scripts.total (map scripts.join_refs joins.now)) }
{
    let mut refs = 0u64;
    for join in joins {
        refs = refs.saturating_add(source_refs(&join.source));
    }
    refs
}

fn core_refs(core: &Core) -> u64
    ensures { result ≡ scripts.up_to 64 (scripts.core_refs core.now) }
{
    let first = match &core.from {
        Some(source) => source_refs(source),
        None => 0,
    };
    joins_refs(core.joins.as_slice()).saturating_add(first)
}

fn body_refs(body: &Body) -> u64
    ensures { result ≡ scripts.up_to 64 (scripts.body_refs body.now) }
{
    let mut refs = 0u64;
    for core in body.cores.as_slice() {
        refs = refs.saturating_add(core_refs(core));
    }
    refs
}

fn steps_refs(steps: &[Step]) -> u64
    ensures { result ≡ scripts.up_to 64 (scripts.total (map scripts.step_refs steps.now)) }
{
    let mut refs = 0u64;
    for step in steps {
        refs = refs.saturating_add(body_refs(&step.body));
    }
    refs
}

/// How many sources of a script are primary tables, DPH or RPH, or the last `u64` where there are
/// more. Takes no memory.
pub fn primary_refs(script: &Script) -> u64
    ensures { result ≡ scripts.up_to 64 (scripts.refs_of script.now) }
{
    steps_refs(script.steps.as_slice()).saturating_add(body_refs(&script.last))
}
