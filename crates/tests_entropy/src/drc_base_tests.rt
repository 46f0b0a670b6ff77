ghost use Rattle.std.specs.Prelude.{◌<◌};

use crate::shown::{are_bytes, is_number};
use drc_base::{
    Failed, MemSink, MemSource, Memory, ReadEnd, Sink, Source, StdSink, StdSource, read_all,
    write_all,
};
use std::alloc::Global;
use std::io::Cursor;
use std::process::Abort;
use std::test::Fail;

/// Forty bytes that differ from their neighbours.
fn some_bytes(rt: &impl Abort, alloc: Global) -> Vec<u8> {
    let mut bytes = Vec::new(alloc);
    for i in 0..40u8 {
        bytes.push(i).expect(rt, "room");
    }
    bytes
}

/// A list of one number.
fn only(rt: &impl Abort, alloc: Global, number: u64) -> Vec<u64> {
    vec![in alloc; number].expect(rt, "room")
}

/// Asserts that a source in memory is read whole by pieces of this length.
fn is_read_whole(rt: &impl Abort, alloc: Global, piece: usize)
    requires { 0 < piece }
{
    let mut source = MemSource::new(some_bytes(rt, alloc), piece, Vec::new(alloc));
    let read = read_all(alloc, &mut source, 40).expect(rt, "the bytes");
    are_bytes(rt, read.as_slice(), some_bytes(rt, alloc).as_slice());
    is_number(rt, source.faults(), 0);
}

#[test]
fn a_source_in_memory_is_read_whole_by_any_piece(rt: HostRuntime) {
    is_read_whole(&rt, rt.alloc(), 1);
    is_read_whole(&rt, rt.alloc(), 3);
    is_read_whole(&rt, rt.alloc(), 16);
    is_read_whole(&rt, rt.alloc(), 100);
}

/// How many bytes are read at the most, the call that fails, and how reading ends.
static ENDS: [(u64, u64, ReadEnd); 5] = [
    (39, 9, ReadEnd::TooLong),
    (0, 9, ReadEnd::TooLong),
    (40, 0, ReadEnd::Failed),
    (40, 2, ReadEnd::Failed),
    (40, 4, ReadEnd::Failed),
];

/// How reading forty bytes ends.
fn end_of(rt: &impl Abort, alloc: Global, most: u64, fails: u64) -> Option<ReadEnd> {
    let mut source = MemSource::new(some_bytes(rt, alloc), 10, only(rt, alloc, fails));
    read_all(alloc, &mut source, most).err()
}

#[test]
fn reading_ends_at_a_failure_or_past_the_most(rt: HostRuntime) {
    for (most, fails, end) in ENDS.iter() {
        assert_eq!(rt; end_of(&rt, rt.alloc(), *most, *fails), Some(*end));
    }
}

/// The call that fails, the room of a sink, how many bytes it holds in the end, and whether writing failed.
static HELD: [(u64, usize, usize, bool); 5] = [
    (9, 40, 40, false),
    (0, 40, 0, true),
    (2, 40, 32, true),
    (3, 40, 40, true),
    (9, 20, 20, true),
];

/// Asserts that a sink holds the first bytes of those written, and whether writing failed.
fn keeps(rt: &impl Abort, alloc: Global, sink: &mut MemSink, held: usize, failed: bool) {
    let bytes = some_bytes(rt, alloc);
    assert!(rt; write_all(sink, &bytes).is_err() == failed);
    assert!(rt; (sink.faults() > 0) == failed);
    are_bytes(rt, sink.held(), bytes.get(..held).expect(rt, "a prefix"));
}

#[test]
fn a_sink_in_memory_keeps_the_prefix_that_came_before_a_failure(rt: HostRuntime) {
    for (fails, room, held, failed) in HELD.iter() {
        let fails = only(&rt, rt.alloc(), *fails);
        let mut sink = MemSink::new(rt.alloc(), 16, *room, fails).expect(&rt, "room");
        keeps(&rt, rt.alloc(), &mut sink, *held, *failed);
    }
}

#[test]
fn adapters_over_std_pass_bytes_on(rt: HostRuntime) {
    let bytes = some_bytes(&rt, rt.alloc());
    let mut source = StdSource::new(Cursor::new(bytes.as_slice()));
    let read = read_all(rt.alloc(), &mut source, 40).expect(&rt, "the bytes");
    are_bytes(&rt, read.as_slice(), bytes.as_slice());
    let mut sink = StdSink::new(Vec::new(rt.alloc()));
    assert!(rt; write_all(&mut sink, &read).is_ok());
    is_number(&rt, sink.faults(), 0);
}

#[test]
fn causes_have_texts(rt: HostRuntime) -> Result<(), Fail> {
    let text = format!(in rt.alloc(); "{Memory}; {Failed}; {}", ReadEnd::TooLong)?;
    assert_eq!(rt;
        text.as_str(),
        "memory wanting; reading or writing failed; too many bytes"
    );
    Ok(())
}
