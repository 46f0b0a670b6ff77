//! What no contract can say: that reading succeeds with ample memory, and that the definitions are the ones
//! meant. The entries of the surfaces were computed beside by the rules of the machine that names its
//! vertices.

ghost use Rattle.std.specs.Prelude.{◌≡◌, ◌<◌};

use crate::faults::is_fault;
use corner_table::{FREE, Steps};
use drc_base::{Fault, Kind, Memory, Refusal};
use drc_bits::Cursor;
use eb_section::{EbRead, read_connectivity};
use std::alloc::Global;
use std::marker::Brand;
use std::process::Abort;
use std::sync::ledger::{Blank, Ledger};
use std::test::Fail;
use worked_surfaces::{RING_DECODED, TETRAHEDRON_DECODED, TORUS_DECODED};

/// A tetrahedron, its symbols E R C in bits, and an interior start face.
const TETRAHEDRON: [u8; 12] = [0, 4, 4, 0, 3, 0, 0, 1, 0x2f, 1, 1, 0x10];

/// The same by contexts: R in that of degree 2, C in that of degree 3.
const TETRAHEDRON_BY_VALENCE: [u8; 32] = [
    2, 4, 4, 0, 3, 0, 0, 1, 1, 0x10, 1, 0, 3, 7, 1, 0x40, 1, 0, 3, 1, 0, 2, 3, 1, 0x40, 1, 0, 0, 0,
    0, 0, 0,
];

/// A torus of seven points, with two split events.
const TORUS: [u8; 20] = [
    0, 7, 14, 0, 13, 3, 2, 11, 5, 1, 7, 2, 4, 0xff, 0xd2, 0x25, 5, 1, 1, 0x10,
];

/// A ring with a hole.
const RING: [u8; 17] = [
    0, 6, 6, 0, 6, 1, 1, 5, 5, 1, 3, 0xef, 0xba, 0, 0xff, 1, 0x11,
];

/// Two faces with a seam between them.
const SEAM: [u8; 15] = [0, 4, 2, 1, 2, 0, 0, 1, 0x1f, 0xff, 1, 0x11, 1, 1, 0x10];

/// These bytes and two more.
fn with_two_behind(alloc: Global, bytes: &[u8]) -> Result<Vec<u8>, Memory> {
    let mut longer = bytes.to_vec(alloc)?;
    longer.extend_from_slice(&[0xff, 0x80])?;
    Ok(longer)
}

/// Whether a surface was read by these symbols, with these numbers of attribute data, symbols, splits and events.
fn is_told(read: &EbRead<'_>, valence: bool, numbers: [u32; 4]) -> bool {
    let told = [
        u32::from(read.attr_data),
        read.symbols,
        read.splits,
        read.events,
    ];
    read.valence == valence && told == numbers && read.seams.len() == usize::from(read.attr_data)
}

/// Whether these bytes, but for the last two, are read as a surface of these entries; the numbers are
/// those of attribute data, symbols, splits and events.
fn reads<L: Ledger>(
    alloc: Global,
    bytes: &[u8],
    valence: bool,
    numbers: [u32; 4],
    entries: &[u32],
    blank: Blank,
) -> Result<bool, Refusal>
    requires name { blank.name ≡ L.name }
    requires parts { blank.parts ≡ L.parts }
    requires some { 0 < L.parts }
{
    let longer = with_two_behind(alloc, bytes)?;
    let mut steps = Steps::<L>::new(blank);
    let mut c = Cursor::new(longer.as_slice());
    let read = read_connectivity(alloc, &mut c, &mut steps)?;
    let is_same = read.sides.table().across(&mut steps) == entries;
    Ok(is_same && is_told(&read, valence, numbers) && c.rest().len() == 2)
}

/// The fault of a section, where the cursor then is at its start.
fn fault_of<L: Ledger>(alloc: Global, bytes: &[u8], blank: Blank) -> Option<Fault>
    requires name { blank.name ≡ L.name }
    requires parts { blank.parts ≡ L.parts }
    requires some { 0 < L.parts }
{
    let mut steps = Steps::<L>::new(blank);
    let mut c = Cursor::new(bytes);
    match read_connectivity(alloc, &mut c, &mut steps) {
        Err(Refusal::Fault(fault)) => { if c.place() == 0 { Some(fault) } else { None } }
        _ => None,
    }
}

/// Sections of standard symbols; the numbers of attribute data, symbols, splits and events; and the entries of the surface.
static STANDARD: [(&[u8], [u32; 4], &[u32]); 12] = [
    // A face by itself.
    (
        &[0, 3, 1, 0, 1, 0, 0, 1, 7, 0xff, 1, 0x11],
        [0, 1, 0, 0],
        &[FREE, FREE, FREE],
    ),
    (&TETRAHEDRON, [0, 3, 0, 0], &TETRAHEDRON_DECODED),
    (&TORUS, [0, 13, 3, 2], &TORUS_DECODED),
    (&RING, [0, 6, 1, 1], &RING_DECODED),
    // Two faces that are never joined.
    (
        &[0, 6, 2, 0, 2, 0, 0, 1, 0x3f, 0xff, 1, 0x22],
        [0, 2, 0, 0],
        &[FREE; 6],
    ),
    // Three faces on an edge: the third is a component of its own.
    (
        &[0, 7, 3, 0, 3, 0, 0, 2, 0x7f, 1, 0xff, 1, 0x22],
        [0, 3, 0, 0],
        &[FREE, FREE, FREE, 8, FREE, FREE, FREE, FREE, 3],
    ),
    (&SEAM, [1, 2, 0, 0], &[4, FREE, FREE, FREE, 0, FREE]),
    // Two tori, each with two events.
    (
        &[
            0, 14, 28, 0, 26, 6, 4, 11, 5, 1, 7, 12, 5, 1, 7, 10, 8, 0xff, 0xd2, 0x25, 0x85, 0x7f,
            0xe9, 0x92, 2, 1, 1, 0x10,
        ],
        [0, 26, 6, 4],
        &[
            11, 23, 35, 7, 38, 20, 10, 3, 29, 14, 6, 0, 16, 82, 9, 19, 12, 32, 22, 15, 5, 26, 18,
            1, 28, 83, 21, 31, 24, 8, 34, 27, 17, 37, 30, 2, 81, 33, 4, 50, 62, 74, 46, 77, 59, 49,
            42, 68, 53, 45, 39, 55, 79, 48, 58, 51, 71, 61, 54, 44, 65, 57, 40, 67, 80, 60, 70, 63,
            47, 73, 66, 56, 76, 69, 41, 78, 72, 43, 75, 52, 64, 36, 13, 25,
        ],
    ),
    // No face, and no call of the table.
    (&[0, 0, 0, 0, 0, 0, 0, 0, 0xff, 1, 0x11], [0; 4], &[]),
    // An event whose side is kept for ever.
    (
        &[0, 3, 1, 0, 1, 0, 1, 0, 0, 1, 1, 7, 0xff, 1, 0x11],
        [0, 1, 0, 1],
        &[FREE, FREE, FREE],
    ),
    // Bytes of symbols that are left over.
    (
        &[0, 3, 1, 0, 1, 0, 0, 3, 7, 9, 9, 0xff, 1, 0x11],
        [0, 1, 0, 0],
        &[FREE, FREE, FREE],
    ),
    // As many declared vertices as there may be.
    (
        &[0, 0x80, 0x80, 0x80, 2, 1, 0, 1, 0, 0, 1, 7, 0xff, 1, 0x11],
        [0, 1, 0, 0],
        &[FREE, FREE, FREE],
    ),
];

#[test]
fn reads_standard(rt: HostRuntime) -> Result<(), Fail> {
    let alloc = rt.alloc();
    for (bytes, numbers, entries) in STANDARD.iter() {
        let is_read = reads::<Brand>(alloc, bytes, false, *numbers, entries, Blank::new(1))?;
        assert!(&rt; is_read, "at {bytes:?}");
    }
    Ok(())
}

#[test]
fn reads_contexts(rt: HostRuntime) -> Result<(), Fail> {
    let is_read = reads::<Brand>(
        rt.alloc(),
        &TETRAHEDRON_BY_VALENCE,
        true,
        [0, 3, 0, 0],
        &TETRAHEDRON_DECODED,
        Blank::new(1),
    )?;
    assert!(&rt; is_read);
    Ok(())
}

/// Faulty sections, and the kind and the place of the first fault.
static FAULTS: [(&[u8], Kind, u64); 36] = [
    (&[1], Kind::Traversal, 0),
    (&[3], Kind::Traversal, 0),
    (&[0, 0x81, 0x80, 0x80, 2], Kind::PointLimit, 1),
    (&[0, 0, 0xff, 0xff, 0xff, 0xff, 15], Kind::FaceLimit, 2),
    (&[0, 0, 0xff, 0xff, 0xff, 0xff, 0xff], Kind::Long, 2),
    (&[0, 3, 1, 17], Kind::AttrLimit, 3),
    (&[0, 3, 1, 0, 2], Kind::Count, 4),
    (&[0, 3, 1, 0, 1, 2], Kind::Count, 5),
    (&[0, 3, 1, 0, 1, 0, 2], Kind::Count, 6),
    (&[0, 3, 2, 0, 2, 1, 1, 2], Kind::EventDelta, 7),
    (&[0, 3, 2, 0, 2, 1, 1, 1, 2], Kind::EventDelta, 8),
    // The second source is counted from the first.
    (&[0, 3, 3, 0, 3, 1, 2, 2, 0, 1], Kind::EventDelta, 9),
    // A block without zeros, and one without a first state.
    (&[0, 3, 1, 0, 1, 0, 0, 1, 7, 0, 1, 0x11], Kind::BadProb, 9),
    (
        &[0, 3, 1, 0, 1, 0, 0, 1, 7, 0xff, 1, 0x40],
        Kind::BadStart,
        11,
    ),
    // Faults of the blocks come before those of the symbols.
    (&[0, 3, 1, 0, 1, 0, 0, 0, 0], Kind::BadProb, 8),
    // The bits of the first symbol, and of the third, aren't there.
    (&[0, 3, 1, 0, 1, 0, 0, 0, 0xff, 1, 0x11], Kind::Short, 8),
    (
        &[0, 9, 3, 0, 3, 0, 0, 1, 0xff, 0xff, 1, 0x11],
        Kind::Short,
        8,
    ),
    (
        &[0, 4, 2, 0, 2, 1, 0, 1, 15, 0xff, 1, 0x11],
        Kind::NoActive,
        1,
    ),
    (&[0, 4, 3, 0, 2, 0, 0, 1, 0x2f, 1, 1, 0x10], Kind::Loop, 2),
    (
        &[0, 5, 3, 0, 3, 0, 1, 1, 1, 0, 1, 0x57, 0xff, 1, 0x11],
        Kind::EventOrder,
        2,
    ),
    (
        &[0, 3, 2, 0, 2, 1, 1, 1, 1, 0, 1, 15, 0xff, 1, 0x11],
        Kind::SamePoint,
        1,
    ),
    (
        &[0, 3, 3, 0, 3, 1, 1, 2, 2, 0, 1, 0x17, 0xff, 1, 0x11],
        Kind::Gone,
        2,
    ),
    (
        &[
            0, 6, 6, 0, 6, 1, 2, 5, 5, 0, 5, 3, 3, 0xef, 0xba, 0, 0xff, 1, 0x11,
        ],
        Kind::Taken,
        0,
    ),
    (&[0, 3, 4, 0, 4, 0, 0, 1, 7, 0xff, 1, 0x11], Kind::Alone, 3),
    (
        &[0, 3, 3, 0, 3, 0, 0, 1, 7, 0xff, 1, 0x11],
        Kind::Degenerate,
        2,
    ),
    (
        &[0, 3, 2, 0, 1, 0, 0, 1, 7, 0xff, 1, 0x11],
        Kind::FaceCount,
        1,
    ),
    (
        &[0, 2, 1, 0, 1, 0, 0, 1, 7, 0xff, 1, 0x11],
        Kind::VertexCount,
        3,
    ),
    // A side is glued that is alone in its loop.
    (
        &[0, 9, 5, 0, 5, 0, 0, 2, 0xa7, 0, 0xff, 1, 0x11],
        Kind::Degenerate,
        2,
    ),
    (&[0, 9, 4, 0, 4, 0, 0, 1, 0xa7, 1, 1, 0x10], Kind::Loop, 4),
    // Contexts: more than all symbols, one that has none left, and a number that is no symbol.
    (&[2, 4, 4, 0, 3, 0, 0, 1, 1, 0x10, 4], Kind::Count, 10),
    (
        &[
            2, 4, 4, 0, 3, 0, 0, 1, 1, 0x10, 1, 0, 3, 7, 1, 0x40, 1, 0, 3, 0, 0, 0, 0, 0,
        ],
        Kind::ContextEmpty,
        2,
    ),
    (
        &[
            2, 4, 4, 0, 3, 0, 0, 1, 1, 0x10, 1, 0, 4, 11, 1, 0x40, 1, 0, 5, 0, 0, 0, 0, 0,
        ],
        Kind::BadSymbol,
        1,
    ),
    // As many faces and symbols are declared as may be, and few come.
    (
        &[
            0, 3, 0x80, 0x80, 0x80, 2, 0, 0x80, 0x80, 0x80, 2, 0, 0, 1, 0xff, 0xff, 1, 0x11,
        ],
        Kind::Short,
        14,
    ),
    (
        &[
            2, 3, 0x80, 0x80, 0x80, 2, 0, 0x80, 0x80, 0x80, 2, 0, 0, 0xff, 1, 0x11, 0, 0, 0, 0, 0,
            0,
        ],
        Kind::ContextEmpty,
        1,
    ),
    // Of as many declared faces one is built.
    (
        &[0, 3, 0x80, 0x80, 0x80, 2, 0, 1, 0, 0, 1, 7, 0xff, 1, 0x11],
        Kind::FaceCount,
        1,
    ),
    // Two events keep a side for the last of as many symbols.
    (
        &[
            0, 3, 0x80, 0x80, 0x80, 2, 0, 0x80, 0x80, 0x80, 2, 0, 2, 0xff, 0xff, 0xff, 1, 0xff,
            0xff, 0xff, 1, 0, 0xff, 0xff, 0xff, 1, 0, 1, 7, 0xff, 1, 0x11,
        ],
        Kind::Taken,
        0,
    ),
];

#[test]
fn refuses_faults(rt: HostRuntime) {
    let alloc = rt.alloc();
    for (bytes, kind, at) in FAULTS.iter() {
        let fault = fault_of::<Brand>(alloc, bytes, Blank::new(1));
        is_fault(&rt, fault, *kind, *at, bytes);
    }
}

/// Whole sections, and where the bytes of their symbols begin and end.
static WHOLE: [(&[u8], usize, usize); 4] = [
    (&TORUS, 13, 17),
    (&RING, 11, 14),
    (&SEAM, 8, 9),
    (&TETRAHEDRON_BY_VALENCE, 0, 0),
];

/// Each shorter prefix of a section is `Short` where it ends, or, where it ends in the bytes of the symbols,
/// where these begin.
fn refuses_cuts_of(rt: &impl Abort, alloc: Global, bytes: &[u8], first: usize, end: usize) {
    for len in 0..bytes.len() {
        let at = if first <= len && len < end {
            first
        } else {
            len
        };
        let fault = fault_of::<Brand>(alloc, &bytes[..len], Blank::new(1));
        is_fault(rt, fault, Kind::Short, at as u64, &bytes[..len]);
    }
}

#[test]
fn refuses_cuts(rt: HostRuntime) {
    let alloc = rt.alloc();
    for (bytes, first, end) in WHOLE.iter() {
        refuses_cuts_of(&rt, alloc, bytes, *first, *end);
    }
}
