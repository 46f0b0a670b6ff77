//! Runs of the program over sources and sinks in memory, of which a call can fail, and what they leave.

ghost use Rattle.std.specs.Prelude.{◌<◌};

use drc_app::run;
use drc_base::{MemSink, MemSource, Sink};
use std::alloc::Global;
use std::process::Abort;
use std::test::Fail;

/// The text of a triangle.
pub(crate) const TEXT: &[u8] =
    b"ply\nformat ascii 1.0\ncomment drc attr 0 0 5 3 0 0\nelement vertex 3\nproperty int x\nproperty int y\nproperty int z\nelement face 1\nproperty list uchar int vertex_indices\nend_header\n0 0 0\n10 0 0\n0 10 -1\n3 0 1 2\n";

/// The map of the faces of the tetrahedron's stream.
pub(crate) const TETRAHEDRON_MAP: &str = "map mesh 4\n3 0\n2 1\n1 2\n0 1\n";

/// More bytes than an input has.
pub(crate) const ALL: u64 = 1000;

/// What a run left: its status, its output and its note.
#[derive(Drop)]
pub(crate) struct Ran {
    pub(crate) status: u8,
    pub(crate) output: MemSink,
    pub(crate) notes: MemSink,
}

/// A list of failing calls: this one alone.
fn only(alloc: Global, call: u64) -> Result<Vec<u64>, Fail> {
    let mut fails = Vec::new(alloc);
    fails.push(call)?;
    Ok(fails)
}

/// No call that comes.
pub(crate) const NEVER: u64 = 1_000_000;

/// No call fails.
pub(crate) const NO_FAILS: [u64; 3] = [NEVER, NEVER, NEVER];

/// The failing calls of a run that reads nothing: a source that fails at its first call shows that it isn't
/// called.
pub(crate) const UNREAD: [u64; 3] = [0, NEVER, NEVER];

/// The note of a source that failed.
pub(crate) const READ_FAILED: &[u8] = b"read failed\n";

/// The note of a sink that failed.
pub(crate) const WRITE_FAILED: &[u8] = b"write failed\n";

/// How many calls move these bytes in whole pieces, with one more to end.
pub(crate) fn calls(text: &[u8], piece: usize) -> u64
    requires { 0 < piece }
{
    (text.len().div_ceil(piece) as u64).min(1000) + 1
}

/// The prefix of a text that so many whole pieces have.
pub(crate) fn prefix(text: &[u8], pieces: u64, piece: usize) -> Result<&[u8], Fail> {
    let len = (pieces.min(1000) as usize * piece.min(1000)).min(text.len());
    Ok(text.get(..len).ok_or("a prefix")?)
}

/// The words of a line.
pub(crate) fn words_of(alloc: Global, line: &str) -> Result<Vec<String>, Fail> {
    let mut words = Vec::new(alloc);
    for word in line.split(' ') {
        words.push(String::from_str(alloc, word)?)?;
    }
    Ok(words)
}

/// A source of these bytes, with its failing call.
fn source_of(alloc: Global, bytes: &[u8], call: u64) -> Result<MemSource, Fail> {
    let fails = only(alloc, call)?;
    let bytes = Vec::from_slice(alloc, bytes)?;
    Ok(MemSource::new(bytes, 16, fails))
}

/// A sink that takes pieces of so many bytes, with its failing call.
fn sink_of(alloc: Global, piece: usize, call: u64) -> Result<MemSink, Fail>
    requires { 0 < piece }
{
    let fails = only(alloc, call)?;
    Ok(MemSink::new(alloc, piece, 2000, fails)?)
}

/// Runs the words over these bytes, with the failing calls of the source and of both sinks.
pub(crate) fn run_line(
    alloc: Global,
    line: &str,
    bytes: &[u8],
    fails: [u64; 3],
) -> Result<Ran, Fail> {
    let words = words_of(alloc, line)?;
    let mut input = source_of(alloc, bytes, fails[0])?;
    let mut output = sink_of(alloc, 16, fails[1])?;
    let mut notes = sink_of(alloc, 4, fails[2])?;
    let status = run(alloc, &words, &mut input, &mut output, &mut notes);
    Ok(Ran {
        status,
        output,
        notes,
    })
}

/// A run of a line left what is due: its status, its output and its note.
fn is_left(rt: &impl Abort, line: &str, done: &Ran, due: (u8, &[u8], &[u8])) {
    assert_eq!(rt; done.status, due.0, "{line}");
    assert_eq!(rt; done.output.held(), due.1);
    assert_eq!(rt; done.notes.held(), due.2);
}

/// A run of a line over an input, with these failing calls, leaves what is due.
pub(crate) fn leaves(
    rt: &(impl Abort + AllocGlobal),
    line: &str,
    input: &[u8],
    fails: [u64; 3],
    due: (u8, &[u8], &[u8]),
) -> Result<(), Fail> {
    let done = run_line(rt.alloc(), line, input, fails)?;
    is_left(rt, line, &done, due);
    Ok(())
}

/// A text, and these bytes behind it.
pub(crate) fn joined(alloc: Global, text: &str, bytes: &[u8]) -> Result<Vec<u8>, Fail> {
    let mut all = Vec::from_slice(alloc, text.as_bytes())?;
    all.extend_from_slice(bytes)?;
    Ok(all)
}
