//! Changes cut before the first deletion.

ghost use Rattle.std.specs.Prelude.{◌≡◌, IfOk, OnOk, IfErr, map};
ghost use Rattle.line_change_meaning.specs.Present.{named, bulk};
ghost use Rattle.layout_placed_meaning.specs.Placed.{later_changes};
ghost use Rattle.run_store.specs.Cutting.{bulk_then, later_then};

use line_change_meaning::Change;
use rdf_meaning::Triple;
use rdf_triples::LoadRefusal;
use std::alloc::Global;

/// The triples of the bulk, and the changes from the first deletion on.
#[derive(Drop)]
pub(crate) struct Cut {
    pub(crate) bulk: Vec<Triple>,
    pub(crate) later: Vec<Change>,
}

impl Cut {
    // Once a deletion came, all changes are later ones.
    fn take(&mut self, change: Change) -> Result<(), LoadRefusal>
        ensures bulk { OnOk result (self.new.bulk.items ≡ bulk_then self.old.bulk.items self.old.later.items change) }
        ensures later { OnOk result (self.new.later.items ≡ later_then self.old.later.items change) }
        ensures err { IfErr result (λ e. e ≡ LoadRefusal.NoMemory) }
    {
        if !self.later.is_empty() {
            self.later.push(change)?;
            return Ok(());
        }
        match change {
            Change::Add(triple) => self.bulk.push(triple)?,
            Change::Delete(triple) => self.later.push(Change::Delete(triple))?,
        }
        Ok(())
    }
}

/// Cuts changes before the first deletion. It moves them, and copies none.
pub(crate) fn cut_at_deletion(alloc: Global, changes: Vec<Change>) -> Result<Cut, LoadRefusal>
    ensures bulk { IfOk result (λ cut. cut.bulk.items ≡ map named (bulk changes.items)) }
    ensures later { IfOk result (λ cut. cut.later.items ≡ later_changes changes.items) }
    ensures err { IfErr result (λ e. e ≡ LoadRefusal.NoMemory) }
{
    let mut cut = Cut {
        bulk: Vec::new(alloc),
        later: Vec::new(alloc),
    };
    'changes: for change in changes {
        cut.take(change)?;
    }
    Ok(cut)
}
