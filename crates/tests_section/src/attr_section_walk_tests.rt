//! Values over a small surface, with ample memory: the bytes are those of a square of two triangles,
//! whose predictions and flags were worked out by hand.

ghost use Rattle.std.specs.Prelude.{◌≡◌, ◌<◌, ◌≤◌, All, length};
ghost use Rattle.corner_table.specs.Ordered.{IsOrdered};
ghost use Rattle.predict.specs.Surfaces.{IsOverTable};
ghost use Rattle.attr_section.specs.Orders.{HasEntries};

use crate::attr_section_tests::decoder_of;
use crate::faults::is_fault;
use attr_section::{Ordered, ReadPositions, Values, read_decoder};
use corner_table::{Classes, Order, SideTable};
use drc_base::{Fault, Kind, Memory, PROFILE_TWO, Refusal};
use drc_bits::Cursor;
use std::alloc::Global;
use std::process::Abort;
use std::test::Fail;
use worked_surfaces::{SQUARE_ORDER, all_below, ordered};

/// The bytes of corrections: the transform, and twelve symbols of a byte each.
const CORRECTIONS: [u8; 15] = [1, 0, 1, 0, 1, 0, 1, 2, 0, 0, 1, 0, 0, 0, 0];
/// The range from 0 to 2.
const RANGE: [u8; 8] = [0, 0, 0, 0, 2, 0, 0, 0];

/// The table of a square, the classes of its corners and its order.
fn square(rt: &impl Abort, alloc: Global) -> (SideTable, Classes, Order)
    ensures over { IsOrdered result.0 result.1.of_corner result.2 }
    ensures entries { length result.2.corner_of_entry ≡ 4 }
    ensures within { All (λ e. e < 4) result.2.entry_of_class }
{
    let worked = ordered(alloc, &SQUARE_ORDER).expect(rt, "ample memory");
    let (sides, classes, order) = worked.expect(rt, "corners of the table");
    assert!(rt; order.corner_of_entry.len() == 4);
    assert!(rt; all_below(order.entry_of_class.as_slice(), 4));
    (sides, classes, order)
}

/// A prediction byte, the corrections and these bytes.
fn with_corrections(alloc: Global, prediction: u8, bytes: &[u8]) -> Result<Vec<u8>, Memory> {
    let mut all = Vec::new(alloc);
    all.push(prediction)?;
    all.extend_from_slice(&CORRECTIONS)?;
    all.extend_from_slice(bytes)?;
    Ok(all)
}

/// What is read over a surface of four entries from these bytes: positions of this type.
fn read_on(alloc: Global, on: &Ordered<'_>, dtype: u8, bytes: &[u8]) -> Result<Vec<Values>, Refusal>
    requires over { IsOverTable on.now }
    requires entries { length on.now.order.now.corner_of_entry ≡ 4 }
    requires within { HasEntries on.now }
{
    let mut h = decoder_of(alloc, dtype, 3)?;
    let mut spent = 0;
    let mut c = Cursor::new(bytes);
    read_decoder(
        alloc,
        &mut c,
        PROFILE_TWO,
        &mut h,
        4,
        Some(on),
        ReadPositions::NotYet,
        &mut spent,
    )
}

/// What is read over the square from a prediction byte, the corrections and these bytes: positions of
/// this type.
fn read_over(
    rt: &impl Abort,
    alloc: Global,
    dtype: u8,
    prediction: u8,
    bytes: &[u8],
) -> Result<Vec<Values>, Refusal> {
    let all = with_corrections(alloc, prediction, bytes)?;
    let (sides, classes, order) = square(rt, alloc);
    let on = Ordered {
        sides: &sides,
        classes: &classes,
        order: &order,
    };
    read_on(alloc, &on, dtype, all.as_slice())
}

/// The flag lists of a row and the range from 0 to 2.
fn with_range(alloc: Global, lists: &[u8]) -> Result<Vec<u8>, Refusal> {
    let mut bytes = Vec::new(alloc);
    bytes.extend_from_slice(lists)?;
    bytes.extend_from_slice(&RANGE)?;
    Ok(bytes)
}

/// The values where the parallelogram is kept.
const KEPT: [i32; 12] = [0, 2, 0, 2, 0, 0, 2, 2, 0, 0, 0, 0];
/// The values where it is left out.
const LEFT_OUT: [i32; 12] = [0, 2, 0, 2, 0, 0, 2, 2, 0, 2, 2, 0];

/// Predictions, lists of flags, and the values that are restored. No flags are read by one parallelogram; with
/// several, the only entry that has one takes a flag of the first list, and flags that are left over count for nothing.
static RESTORED: [(u8, &[u8], [i32; 12]); 5] = [
    (1, &[], KEPT),
    (4, &[1, 0xff, 1, 0x11, 0, 0, 0], KEPT),
    (4, &[1, 1, 1, 0x10, 0, 0, 0], LEFT_OUT),
    (4, &[2, 0xff, 1, 0x22, 0, 0, 0], KEPT),
    (4, &[1, 0xff, 1, 0x11, 0, 1, 1, 1, 0x10, 0], KEPT),
];

/// These are values of one attribute, with this prediction, and in front of them there are no bytes.
fn are_values(rt: &impl Abort, read: &[Values], prediction: u8, lists: &[u8], values: &[i32]) {
    assert!(rt; prediction < 5);
    assert_eq!(rt; read.len(), 1);
    assert!(rt;
        read[0].values.as_slice() == values,
        "{prediction} {lists:?}"
    );
    assert_eq!(rt; (read[0].predict, read[0].at), (prediction as i8, 0));
}

/// By a prediction and these lists of flags these values are read.
fn stand(
    rt: &impl Abort,
    alloc: Global,
    prediction: u8,
    lists: &[u8],
    values: &[i32],
) -> Result<(), Refusal> {
    let bytes = with_range(alloc, lists)?;
    let read = read_over(rt, alloc, 5, prediction, &bytes)?;
    are_values(rt, read.as_slice(), prediction, lists, values);
    Ok(())
}

#[test]
fn values_stand_on_a_surface(rt: HostRuntime) -> Result<(), Fail> {
    let alloc = rt.alloc();
    for (prediction, lists, values) in RESTORED.iter() {
        stand(&rt, alloc, *prediction, lists, values.as_slice())?;
    }
    Ok(())
}

/// Types, predictions, faulty bytes behind the corrections, and the kind and the place of the first fault.
static FAULTS: [(u8, u8, &[u8], Kind, u64); 9] = [
    (5, 4, &[7], Kind::FlagCount, 16),
    (5, 4, &[1, 0xff, 1, 0x11, 7], Kind::FlagCount, 20),
    (5, 4, &[6, 0], Kind::BadProb, 17),
    (5, 4, &[0, 0, 0], Kind::Short, 19),
    (
        5,
        4,
        &[0, 0, 0, 0, 0, 0, 0, 0, 2, 0, 0, 0],
        Kind::FlagsShort,
        0,
    ),
    // The flag is in another list than that of entries with one parallelogram.
    (
        5,
        4,
        &[0, 1, 0xff, 1, 0x11, 0, 0, 0, 0, 0, 0, 2, 0, 0, 0],
        Kind::FlagsShort,
        0,
    ),
    // A range is tested before the flags, and these before the values.
    (
        5,
        4,
        &[0, 0, 0, 0, 1, 0, 0, 0, 0, 0, 0, 0],
        Kind::WrapRange,
        20,
    ),
    (
        2,
        4,
        &[0, 0, 0, 0, 0xff, 0xff, 0xff, 0xff, 2, 0, 0, 0],
        Kind::FlagsShort,
        0,
    ),
    (
        2,
        1,
        &[0xff, 0xff, 0xff, 0xff, 2, 0, 0, 0],
        Kind::ValueRange,
        0,
    ),
];

/// The fault of what is read over the square.
fn fault_over(
    rt: &impl Abort,
    alloc: Global,
    dtype: u8,
    prediction: u8,
    bytes: &[u8],
) -> Option<Fault> {
    match read_over(rt, alloc, dtype, prediction, bytes) {
        Err(Refusal::Fault(fault)) => Some(fault),
        _ => None,
    }
}

#[test]
fn faults_over_a_surface(rt: HostRuntime) {
    let alloc = rt.alloc();
    for (dtype, prediction, bytes, kind, at) in FAULTS.iter() {
        let found = fault_over(&rt, alloc, *dtype, *prediction, bytes);
        is_fault(&rt, found, *kind, *at, bytes);
    }
}
