//! Copies of patterns.

ghost use Rattle.std.specs.Prelude.{◌≡◌, IfOk};

use query_meaning::{Pattern, Slot};
use sqlite_items::Items;
use std::alloc::{AllocError, Global};

/// An equal slot.
pub fn copy_slot(alloc: Global, slot: &Slot) -> Result<Slot, AllocError>
    ensures { IfOk result (λ x. x ≡ slot.now) }
{
    match slot {
        Slot::Var(v) => Ok(Slot::Var(*v)),
        Slot::Const(term) => Ok(Slot::Const(term.copy(alloc)?)),
    }
}

/// An equal pattern.
pub fn copy_pattern(alloc: Global, pattern: &Pattern) -> Result<Pattern, AllocError>
    ensures { IfOk result (λ x. x ≡ pattern.now) }
{
    Ok(Pattern {
        number: pattern.number,
        s: copy_slot(alloc, &pattern.s)?,
        p: copy_slot(alloc, &pattern.p)?,
        o: copy_slot(alloc, &pattern.o)?,
    })
}

/// Equal patterns.
pub fn copy_patterns(alloc: Global, patterns: &[Pattern]) -> Result<Items<Pattern>, AllocError>
    ensures { IfOk result (λ xs. xs ≡ patterns.now) }
{
    let mut copies = Items::new(alloc);
    for pattern in patterns {
        let copy = copy_pattern(alloc, pattern)?;
        copies.push(copy)?;
    }
    Ok(copies)
}
