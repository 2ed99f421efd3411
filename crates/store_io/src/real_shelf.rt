//! A shelf over the files of the system.

ghost use Rattle.std.specs.Prelude.{◌≡◌, [], None, IfOk, OnErr, take, length};
ghost use Rattle.store_io.specs.Reading.{Reads};
ghost use Rattle.store_io.specs.Shelves.{faults_among};

use crate::failures::Failures;
use crate::shelf::{Shelf, ShelfError, Taken};
use std::alloc::{AllocError, Global};
use std::fs;
use std::io::Read;
use std::rt::Files;

/// How many bytes are asked for at once.
const CHUNK: usize = 65_536;

/// A shelf that opens the named file, and tells no content.
#[derive(Drop)]
pub struct RealShelf<'r, R: Files> {
    files: &'r R,
    failed: Failures,
}

impl<'r, R: Files> RealShelf<'r, R> {
    /// A shelf of which no read has failed.
    pub fn new(alloc: Global, files: &'r R) -> Self
        ensures { result.failed ≡ [] }
    {
        RealShelf {
            files,
            failed: Failures::new(alloc),
        }
    }
}

// Appends what the reader gives until its end, or nothing where that is more than `most` bytes.
fn append_all<F: Read>(
    file: &mut F,
    chunk: &mut [u8],
    most: usize,
    into: &mut Vec<u8>,
) -> Result<Taken, ShelfError>
    ensures read { IfOk result (Reads None most into.old.items into.new.items) }
    ensures starts { OnErr result (take (length into.old.items) into.new.items ≡ into.old.items) }
{
    let start = into.len();
    loop {
        let Ok(count) = file.read(chunk) else {
            return Err(ShelfError::Failed);
        };
        if count == 0 {
            return Ok(Taken::All);
        }
        if count > most - (into.len() - start) {
            into.truncate(start);
            return Ok(Taken::Longer);
        }
        into.extend_from_slice(&chunk[..count])?;
    }
}

fn new_chunk(alloc: Global) -> Result<Vec<u8>, AllocError> {
    vec![in alloc; 0u8; CHUNK]
}

// The same with a chunk of its own, and nothing appended after an error.
fn append_file<F: Read>(
    alloc: Global,
    file: &mut F,
    most: usize,
    into: &mut Vec<u8>,
) -> Result<Taken, ShelfError>
    ensures read { IfOk result (Reads None most into.old.items into.new.items) }
    ensures err { OnErr result (into.new.items ≡ into.old.items) }
{
    let start = into.len();
    let mut chunk = new_chunk(alloc)?;
    let taken = append_all(file, &mut chunk, most, into);
    if taken.is_err() {
        into.truncate(start);
    }
    taken
}

impl<R: Files> Shelf for RealShelf<'_, R> {
    ghost content = { λ _ _. None };

    ghost faults = { λ s. faults_among s.failed };

    fn read_whole(
        &mut self,
        alloc: Global,
        name: &str,
        most: usize,
        into: &mut Vec<u8>,
    ) -> Result<Taken, ShelfError> {
        if let Ok(mut file) = fs::open(self.files, name) {
            match append_file(alloc, &mut file, most, into) {
                Err(ShelfError::Failed) => {}
                taken => return taken,
            }
        }
        self.failed.note(alloc, name)?;
        Err(ShelfError::Failed)
    }
}
