//! The calls beside bytes that another program gave, with ample memory.

ghost use Rattle.std.specs.Prelude.{◌≤◌, ◌<◌, ◌^◌};

use crate::shown::{are_bytes, is_number};
use drc_base::Kind;
use drc_bits::{BitReader, BitWriter, Cursor, put_var32, put_var64};
use std::alloc::Global;
use std::process::Abort;

/// Appends a number of so many bits.
fn put(rt: &impl Abort, writer: &mut BitWriter, n: u32, value: u32)
    requires n { n ≤ 32 }
    requires value { value < 2 ^ n }
{
    writer.put(n, value).expect(rt, "room");
}

/// The bytes of numbers of many widths.
fn written(rt: &impl Abort, alloc: Global) -> Vec<u8> {
    let mut writer = BitWriter::new(alloc);
    put(rt, &mut writer, 3, 5);
    put(rt, &mut writer, 8, 0xa5);
    put(rt, &mut writer, 32, 0xdead_beef);
    put(rt, &mut writer, 0, 0);
    put(rt, &mut writer, 11, 1234);
    put(rt, &mut writer, 1, 1);
    put(rt, &mut writer, 31, 0x7fff_fffe);
    put(rt, &mut writer, 17, 65537);
    writer.finish()
}

/// The bytes of those numbers.
static WRITTEN: [u8; 13] = [
    0x2d, 0x7d, 0xf7, 0x6d, 0xf5, 0x96, 0x66, 0xff, 0xff, 0xff, 0x7f, 0x00, 0x40,
];

/// Numbers of many widths, put one after another.
#[test]
fn bits_are_written(rt: HostRuntime) {
    let bytes = written(&rt, rt.alloc());
    are_bytes(&rt, bytes.as_slice(), &WRITTEN);
}

/// Asserts which number of so many bits comes next.
fn is_next(rt: &impl Abort, reader: &mut BitReader<'_>, n: u32, value: Option<u32>)
    requires { n ≤ 32 }
{
    assert_eq!(rt; reader.bits(n), value);
}

/// Numbers of many widths, read one after another.
#[test]
fn bits_are_read(rt: HostRuntime) {
    let bytes = written(&rt, rt.alloc());
    let mut reader = BitReader::new(bytes.as_slice());
    is_next(&rt, &mut reader, 3, Some(5));
    is_next(&rt, &mut reader, 8, Some(0xa5));
    is_number(&rt, reader.used() as u64, 2);
    is_next(&rt, &mut reader, 32, Some(0xdead_beef));
    is_next(&rt, &mut reader, 0, Some(0));
    is_next(&rt, &mut reader, 11, Some(1234));
    is_next(&rt, &mut reader, 1, Some(1));
    is_next(&rt, &mut reader, 31, Some(0x7fff_fffe));
    is_next(&rt, &mut reader, 19, None);
    is_next(&rt, &mut reader, 17, Some(65537));
    is_number(&rt, reader.used() as u64, 13);
    is_next(&rt, &mut reader, 1, Some(0));
    is_next(&rt, &mut reader, 1, None);
}

/// What a cursor answers at a varint of 32 bits, a fault as its kind.
fn read32(bytes: &[u8]) -> Result<u32, Kind> {
    match Cursor::new(bytes).var32() {
        Ok(value) => Ok(value),
        Err(fault) => Err(fault.kind),
    }
}

/// What a cursor answers at a varint of 64 bits, a fault as its kind.
fn read64(bytes: &[u8]) -> Result<u64, Kind> {
    match Cursor::new(bytes).var64() {
        Ok(value) => Ok(value),
        Err(fault) => Err(fault.kind),
    }
}

/// Asserts what a cursor answers at a varint of 32 bits.
fn is_read32(rt: &impl Abort, bytes: &[u8], answer: Result<u32, Kind>) {
    assert_eq!(rt; read32(bytes), answer, "at {bytes:?}");
}

/// Asserts what a cursor answers at a varint of 64 bits.
fn is_read64(rt: &impl Abort, bytes: &[u8], answer: Result<u64, Kind>) {
    assert_eq!(rt; read64(bytes), answer, "at {bytes:?}");
}

/// Numbers at each length of a varint, with their shortest spellings.
static SPELLINGS: [(u64, &[u8]); 13] = [
    (0, &[0]),
    (127, &[0x7f]),
    (128, &[0x80, 0x01]),
    (16383, &[0xff, 0x7f]),
    (16384, &[0x80, 0x80, 0x01]),
    (2_097_152, &[0x80, 0x80, 0x80, 0x01]),
    (268_435_456, &[0x80, 0x80, 0x80, 0x80, 0x01]),
    (0xffff_ffff, &[0xff, 0xff, 0xff, 0xff, 0x0f]),
    (1 << 35, &[0x80, 0x80, 0x80, 0x80, 0x80, 0x01]),
    (1 << 42, &[0x80, 0x80, 0x80, 0x80, 0x80, 0x80, 0x01]),
    (1 << 49, &[0x80, 0x80, 0x80, 0x80, 0x80, 0x80, 0x80, 0x01]),
    (
        1 << 56,
        &[0x80, 0x80, 0x80, 0x80, 0x80, 0x80, 0x80, 0x80, 0x01],
    ),
    (
        u64::MAX,
        &[0xff, 0xff, 0xff, 0xff, 0xff, 0xff, 0xff, 0xff, 0xff, 0x01],
    ),
];

#[test]
fn varints_of_every_length(rt: HostRuntime) {
    for (value, bytes) in SPELLINGS.iter() {
        are_bytes(&rt, put_var64(*value).as_slice(), bytes);
        is_read64(&rt, bytes, Ok(*value));
        if let Ok(small) = u32::try_from(*value) {
            are_bytes(&rt, put_var32(small).as_slice(), bytes);
            is_read32(&rt, bytes, Ok(small));
        }
    }
}

/// Spellings at the edges: too long, cut short, and longer than they have to be; and what is read of each.
static EDGES: [(&[u8], Result<u32, Kind>, Result<u64, Kind>); 7] = [
    (&[], Err(Kind::Short), Err(Kind::Short)),
    (&[0x80, 0x80], Err(Kind::Short), Err(Kind::Short)),
    (&[0x80, 0x00], Ok(0), Ok(0)),
    (
        &[0xff, 0xff, 0xff, 0xff, 0x1f],
        Err(Kind::Long),
        Ok(0x1_ffff_ffff),
    ),
    (
        &[0x80, 0x80, 0x80, 0x80, 0x80],
        Err(Kind::Long),
        Err(Kind::Short),
    ),
    (
        &[0xff, 0xff, 0xff, 0xff, 0xff, 0xff, 0xff, 0xff, 0xff, 0x02],
        Err(Kind::Long),
        Err(Kind::Long),
    ),
    (
        &[0x80, 0x80, 0x80, 0x80, 0x80, 0x80, 0x80, 0x80, 0x80, 0x80],
        Err(Kind::Long),
        Err(Kind::Long),
    ),
];

#[test]
fn varints_at_the_edges(rt: HostRuntime) {
    for (bytes, small, large) in EDGES.iter() {
        is_read32(&rt, bytes, *small);
        is_read64(&rt, bytes, *large);
    }
}
