//! Answers queries over files of triples.
#![tactic(auto)]

use db2rdf_top::{Status, run, tell};
use std::env;
use std::io::ErrorKind;
use std::process::ExitCode;
use store_io::{RealShelf, RealSink};

// The words after the program's name.
fn words(rt: &HostRuntime) -> Result<Vec<String>, Status> {
    let mut words = Vec::new(rt.alloc());
    match env::args(rt) {
        Ok(args) => {
            for word in args.skip(1) {
                words.push(word)?;
            }
            Ok(words)
        }
        Err(e) if e.kind() == ErrorKind::OutOfMemory => Err(Status::NoMemory),
        Err(_) => Err(Status::Usage),
    }
}

fn main(rt: HostRuntime) -> ExitCode {
    let alloc = rt.alloc();
    let mut shelf = RealShelf::new(alloc, &rt);
    let mut out = RealSink::output(&rt);
    let mut err = RealSink::error(&rt);
    let status = match words(&rt) {
        Ok(words) => run(&rt, alloc, &words, &mut shelf, &mut out, &mut err),
        Err(status) => tell(alloc, status, &mut err),
    };
    ExitCode::from(status.code())
}
