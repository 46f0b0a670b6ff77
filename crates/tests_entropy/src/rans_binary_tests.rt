//! The calls beside blocks that another program gave, with ample memory.

ghost use Rattle.std.specs.Prelude.{◌<◌, ◌^◌, length};

use crate::shown::{are_bytes, is_fault};
use drc_base::{Fault, Kind};
use drc_bits::Cursor;
use rans_binary::{BitBlock, write_block};
use std::alloc::Global;
use std::process::Abort;

/// Reads the bits of a block and a hundred more, and compares what is behind the block.
fn reads(rt: &impl Abort, bytes: &[u8], bits: &[bool]) {
    let mut c = Cursor::new(bytes);
    let mut block = BitBlock::read(&mut c).expect(rt, "a block");
    are_bytes(rt, c.rest(), &[7, 200, 255]);
    for bit in bits {
        assert!(rt; block.next() == *bit);
    }
    for _ in 0..100u8 {
        let _more = block.next();
    }
}

/// Writes the bits, compares the block, and reads the bits and a hundred more behind other bytes.
fn round(rt: &impl Abort, alloc: Global, bits: &[bool], wanted: &[u8])
    requires { length bits.now < 100 }
{
    let mut bytes = write_block(alloc, bits).expect(rt, "room");
    are_bytes(rt, bytes.as_slice(), wanted);
    bytes.extend_from_slice(&[7, 200, 255]).expect(rt, "room");
    reads(rt, bytes.as_slice(), bits);
}

/// The kind and place of the fault of a block, if any.
fn fault_of(bytes: &[u8]) -> Option<Fault> {
    BitBlock::read(&mut Cursor::new(bytes)).err()
}

#[test]
fn blocks_are_written_and_read(rt: HostRuntime) {
    let alloc = rt.alloc();
    round(&rt, alloc, &[], &[0x01, 0x01, 0x00]);
    round(&rt, alloc, &[false], &[0xff, 0x01, 0x11]);
    round(&rt, alloc, &[true], &[0x01, 0x01, 0x10]);
    round(&rt, alloc, &[false, false], &[0xff, 0x01, 0x22]);
    round(&rt, alloc, &[true; 40], &[0x01, 0x02, 0xa3, 0x42]);
}

/// The block of forty bits, of which every third one is set.
static THIRDS: [u8; 9] = [0xa6, 0x07, 0xea, 0xd3, 0x20, 0x52, 0x16, 0x97, 0x82];

#[test]
fn a_block_of_thirds_is_written_and_read(rt: HostRuntime) {
    let mut thirds = [false; 40];
    for k in 0..14usize {
        thirds[3 * k] = true;
    }
    round(&rt, rt.alloc(), &thirds, &THIRDS);
}

/// Bytes with which no block begins, and their faults.
static BAD_BLOCKS: [(&[u8], Kind, u64); 8] = [
    (&[], Kind::Short, 0),
    (&[0x00, 0x01, 0x11], Kind::BadProb, 0),
    (&[0xff], Kind::Short, 1),
    (&[0xff, 0xff, 0xff, 0xff, 0xff, 0x10], Kind::Long, 1),
    (&[0xff, 0x02, 0x11], Kind::Short, 2),
    (&[0xff, 0x00, 0x11], Kind::BadStart, 2),
    (&[0xff, 0x01, 0x40], Kind::BadStart, 2),
    (&[0xff, 0x04, 0x00, 0x00, 0x00, 0xc0], Kind::BadStart, 2),
];

#[test]
fn bad_blocks_are_refused(rt: HostRuntime) {
    for (bytes, kind, at) in BAD_BLOCKS.iter() {
        is_fault(&rt, bytes, fault_of(bytes), *kind, *at);
    }
}
