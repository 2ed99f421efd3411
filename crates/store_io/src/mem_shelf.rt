//! A shelf in memory.

ghost use Rattle.std.specs.Prelude.{◌≡◌, ◌++◌, [], ◌∷◌, ℕ, List, Some, ◌<◌, OnOk, OnErr, IfOk, IsErrOf, IsTrue, IsOk, option_copied, find, reverse, not};
ghost use Rattle.std.specs.Str.{bytes_eq};
ghost use Rattle.store_io.specs.Reading.{Reads, CountsFaults};
ghost use Rattle.store_io.specs.Shelves.{content_of, faults_among, next_read, next_fails};

use crate::failures::Failures;
use crate::shelf::{Shelf, ShelfError, Taken};
use std::alloc::{AllocError, Global};
use std::marker::Model;

#[derive(Drop)]
struct File {
    name: String,
    bytes: Vec<u8>,
}

impl Model for File {
    ghost use Rattle.std.specs.Prelude.{string_bytes};
    ghost use Rattle.store_io.specs.Shelves.{NamedBytes};

    ghost Value = { NamedBytes };

    ghost view = { λ f. record { name = string_bytes f.name; bytes = f.bytes.items } };
}

/// A shelf whose files were put there, and whose reads fail where that was asked for.
#[derive(Drop)]
pub struct MemShelf {
    files: Vec<File>,
    failed: Failures,
    reads: u64,
    failing: Vec<u64>,
}

impl Model for MemShelf {
    ghost use Rattle.store_io.specs.Shelves.{ShelfState};

    ghost Value = { ShelfState };

    ghost view = { λ s. record { files = s.files.items; failed = s.failed; reads = s.reads; failing = s.failing.items } };
}

impl MemShelf {
    /// A shelf with no file, of which nothing was read and no read is to fail.
    pub fn new(alloc: Global) -> MemShelf
        ensures { result ≡ record { files = []; failed = []; reads = 0; failing = [] } }
    {
        MemShelf {
            files: Vec::new(alloc),
            failed: Failures::new(alloc),
            reads: 0,
            failing: Vec::new(alloc),
        }
    }

    /// Puts a file on the shelf; the last one of a name counts.
    pub fn add_file(&mut self, alloc: Global, name: &str, bytes: &[u8]) -> Result<(), AllocError>
        ensures ok { OnOk result (self.new ≡ record self.old { files = self.old.files ++ record { name = name.now; bytes = bytes.now } ∷ [] }) }
        ensures err { OnErr result (self.new ≡ self.old) }
    {
        let file = File {
            name: String::from_str(alloc, name)?,
            bytes: bytes.to_vec(alloc)?,
        };
        self.files.push(file)?;
        Ok(())
    }

    /// Makes that read fail, counted from 1 over the shelf's life.
    pub fn fail_at(&mut self, call: u64) -> Result<(), AllocError>
        ensures ok { OnOk result (self.new ≡ record self.old { failing = self.old.failing ++ call ∷ [] }) }
        ensures err { OnErr result (self.new ≡ self.old) }
    {
        self.failing.push(call)?;
        Ok(())
    }
}

// The last file of this name.
fn find_file<'a>(files: &'a [File], name: &str) -> Option<&'a File>
    ensures { option_copied result ≡ find (λ file. bytes_eq file.name name.now) (reverse files.now) }
{
    files.iter().rev().find(|file| file.name.as_str() == name)
}

// The content of the file, where it has at most `most` bytes.
fn take_file(file: &File, most: usize, into: &mut Vec<u8>) -> Result<Taken, ShelfError>
    ensures read { IfOk result (Reads (Some file.now.bytes) most into.old.items into.new.items) }
    ensures err { OnErr result (into.new.items ≡ into.old.items) }
    ensures failed { IsErrOf result ShelfError.Failed → ⊥ }
{
    if file.bytes.len() > most {
        return Ok(Taken::Longer);
    }
    into.extend_from_slice(&file.bytes)?;
    Ok(Taken::All)
}

impl Shelf for MemShelf {
    ghost content = { content_of };

    ghost faults = { λ s. faults_among s.failed };

    /// Fails exactly at a read that is to fail and at a name that was never added.
    fn read_whole(
        &mut self,
        alloc: Global,
        name: &str,
        most: usize,
        into: &mut Vec<u8>,
    ) -> Result<Taken, ShelfError>
        ensures read { IfOk result (Reads (content_of self.old name.now) most into.old.items into.new.items) }
        ensures err { OnErr result (into.new.items ≡ into.old.items) }
        ensures content { (other : List ℕ) → content_of self.new other ≡ content_of self.old other }
        ensures counts { CountsFaults (faults_among self.old.failed) (faults_among self.new.failed) name.now }
        ensures failed { IsErrOf result ShelfError.Failed → faults_among self.old.failed name.now < faults_among self.new.failed name.now }
        ensures notes_one { IsErrOf result ShelfError.Failed → self.new.failed ≡ self.old.failed ++ name.now ∷ [] }
        ensures no_fault { OnOk result (self.new.failed ≡ self.old.failed) }
        ensures no_note { IsErrOf result ShelfError.NoMemory → self.new.failed ≡ self.old.failed }
        ensures fails_only_so { IsErrOf result ShelfError.Failed → IsTrue (next_fails self.old name.now) }
        ensures fails_so { IsOk result → IsTrue (not (next_fails self.old name.now)) }
        ensures reads { self.new.reads ≡ next_read self.old }
        ensures kept { (self.new.files ≡ self.old.files) × (self.new.failing ≡ self.old.failing) }
    {
        self.reads = self.reads.saturating_add(1);
        if !self.failing.contains(&self.reads) {
            if let Some(file) = find_file(&self.files, name) {
                return take_file(file, most, into);
            }
        }
        self.failed.note(alloc, name)?;
        Err(ShelfError::Failed)
    }
}
