//! Runs in memory.

use crate::case::Case;
use db2rdf_top::run;
use std::alloc::{AllocError, Global};
use std::thread::Threads;
use store_io::{MemShelf, MemSink};

/// How a run ended.
#[derive(Drop)]
pub struct Outcome {
    pub code: u8,
    pub out: Vec<u8>,
    pub error: Vec<u8>,
}

fn shelf_of(alloc: Global, case: &Case) -> Result<MemShelf, AllocError> {
    let mut shelf = MemShelf::new(alloc);
    for file in case.files.as_slice() {
        shelf.add_file(alloc, file.name.as_str(), file.bytes.as_slice())?;
    }
    for read in case.failing_reads.as_slice() {
        shelf.fail_at(*read)?;
    }
    Ok(shelf)
}

/// Runs the words of a case over its files.
pub fn outcome_of<R: Threads + Sync>(
    rt: &R,
    alloc: Global,
    case: &Case,
) -> Result<Outcome, AllocError> {
    let mut shelf = shelf_of(alloc, case)?;
    let mut out = MemSink::with_room(alloc, case.out_room)?;
    let mut error = MemSink::with_room(alloc, case.error_room)?;
    let status = run(rt, alloc, &case.words, &mut shelf, &mut out, &mut error);
    Ok(Outcome {
        code: status.code(),
        out: out.bytes().to_vec(alloc)?,
        error: error.bytes().to_vec(alloc)?,
    })
}

#[derive(Drop)]
struct Kept {
    title: String,
    out: Vec<u8>,
}

/// The outputs of the cases before, by their titles.
#[derive(Drop)]
pub struct Earlier {
    kept: Vec<Kept>,
}

impl Earlier {
    pub fn new(alloc: Global) -> Earlier {
        Earlier {
            kept: Vec::new(alloc),
        }
    }

    pub fn keep(&mut self, alloc: Global, title: &str, out: Vec<u8>) -> Result<(), AllocError> {
        let title = String::from_str(alloc, title)?;
        self.kept.push(Kept { title, out })?;
        Ok(())
    }

    /// The output of the last run of this title.
    pub fn out_of(&self, title: &str) -> Option<&[u8]> {
        let kept = self
            .kept
            .iter()
            .rev()
            .find(|kept| kept.title.as_str() == title)?;
        Some(kept.out.as_slice())
    }
}
