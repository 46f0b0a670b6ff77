//! The program `drc`: the commands of `drc_app` over the standard streams. It ends with the status
//! that `run` answers, or, where a word of the command line isn't UTF-8, with 7, and then writes
//! nothing.
#![tactic(auto)]

mod words;

use crate::words::{NoWords, words_of};
use drc_app::{out_of_memory, run};
use drc_base::{StdSink, StdSource};
use std::alloc::Global;
use std::process::ExitCode;

/// The status where a word of the command line isn't UTF-8.
const NOT_TEXT: u8 = 7;

/// The bytes of the largest block that the C library keeps for reuse once such a block was given back.
const KEPT_BYTES: usize = 0x1ff_0000;

/// Takes a large block and gives it back unused. The C library of Linux hands a freed block to the system, unless one
/// as large was freed before; pages that are taken anew are cleared anew, a tenth of the time of decoding. Nothing depends
/// on whether the block is there.
fn keep_freed_blocks(alloc: Global) {
    let _ = Vec::<u8>::with_capacity(alloc, KEPT_BYTES);
}

fn main(rt: HostRuntime) -> ExitCode {
    keep_freed_blocks(rt.alloc());
    let mut notes = StdSink::new(rt.stderr());
    let words = match words_of(&rt, rt.alloc()) {
        Ok(words) => words,
        Err(NoWords::NotText) => return ExitCode::from(NOT_TEXT),
        Err(NoWords::Memory) => return ExitCode::from(out_of_memory(&mut notes)),
    };
    let mut input = StdSource::new(rt.stdin());
    let mut output = StdSink::new(rt.stdout());
    let status = run(rt.alloc(), &words, &mut input, &mut output, &mut notes);
    ExitCode::from(status)
}
