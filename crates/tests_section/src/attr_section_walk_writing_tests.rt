//! Values over small surfaces are written as their bytes, and read back, with ample memory.

ghost use Rattle.std.specs.Prelude.{◌≡◌, ◌<◌, ◌≤◌, [], ◌∷◌, IfOk, length};
ghost use Rattle.predict.specs.Surfaces.{IsOverTable};
ghost use Rattle.attr_section.specs.Orders.{HasEntries};
ghost use Rattle.attr_section.specs.Examples.{example_head, surface_values, surface_prediction, surface_positions, surface_decoder};

use crate::attr_section_tests::with_one_behind;
use attr_heads::Head;
use attr_section::{DecoderHead, Ordered, ReadPositions, Values, read_decoder, write_decoder};
use drc_base::{PROFILE_TWO, Refusal, Sequence};
use drc_bits::Cursor;
use std::alloc::{AllocError, Global};
use std::process::Abort;
use std::test::Fail;
use worked_surfaces::{SQUARE_ORDER, TETRAHEDRON_PAIRS, WorkedOrder, all_below, ordered};

/// The positions of two triangles, or of a tetrahedron, by one parallelogram or by the mean of several.
fn positions(alloc: Global, closed: bool, many: bool) -> Result<Values, AllocError>
    ensures { IfOk result (λ v. v ≡ surface_positions closed many) }
{
    let values = if closed {
        [0, 0, 1, 0, 1, 0, 0, 0, 0, 1, 0, 0]
    } else {
        [0, 2, 0, 2, 0, 0, 2, 2, 0, 0, 0, 0]
    };
    Ok(Values {
        values: Sequence::from_vec(Vec::from_slice(alloc, &values)?),
        predict: if many { 4 } else { 1 },
        at: 0,
    })
}

/// A decoder of positions.
fn decoder(alloc: Global) -> Result<DecoderHead, AllocError>
    ensures { IfOk result (λ d. d ≡ surface_decoder) }
{
    let head = Head {
        usage: 0,
        dtype: 5,
        comps: 3,
        normalized: 0,
        id: 0,
        quant: None,
        octa: None,
    };
    Ok(DecoderHead {
        data_id: Some(255),
        corner: false,
        degree: false,
        heads: Sequence::from_vec(vec![in alloc; head]?),
    })
}

/// Whether the positions are written over an ordered surface as these bytes.
fn values_are_written(
    alloc: Global,
    on: &Ordered<'_>,
    closed: bool,
    many: bool,
    bytes: &[u8],
) -> Result<bool, Refusal>
    requires over { IsOverTable on.now }
    requires entries { length on.now.order.now.corner_of_entry ≡ 4 }
{
    let h = decoder(alloc)?;
    let given = vec![in alloc; positions(alloc, closed, many)?]?;
    let mut written = Vec::new(alloc);
    write_decoder(
        alloc,
        &mut written,
        &h,
        &given,
        true,
        Some(on),
        ReadPositions::NotYet,
    )?;
    Ok(written.as_slice() == bytes)
}

/// Whether these are the positions alone.
fn are_positions(
    alloc: Global,
    closed: bool,
    many: bool,
    read: &[Values],
) -> Result<bool, AllocError> {
    if read.len() != 1 {
        return Ok(false);
    }
    let given = positions(alloc, closed, many)?;
    let prediction = (read[0].predict, read[0].at) == (given.predict, 0);
    Ok(prediction && read[0].values.as_slice() == given.values.as_slice())
}

/// Whether these bytes, but for the last one, are read over an ordered surface as the positions.
fn values_are_read(
    alloc: Global,
    on: &Ordered<'_>,
    closed: bool,
    many: bool,
    bytes: &[u8],
) -> Result<bool, Refusal>
    requires over { IsOverTable on.now }
    requires entries { length on.now.order.now.corner_of_entry ≡ 4 }
    requires within { HasEntries on.now }
{
    let mut h = decoder(alloc)?;
    let mut c = Cursor::new(bytes);
    let mut spent = 5;
    let read = read_decoder(
        alloc,
        &mut c,
        PROFILE_TWO,
        &mut h,
        4,
        Some(on),
        ReadPositions::NotYet,
        &mut spent,
    )?;
    if c.rest().len() != 1 || spent != 17 {
        return Ok(false);
    }
    Ok(are_positions(alloc, closed, many, read.as_slice())?)
}

/// Whether the positions are written over an ordered surface as these bytes, and these bytes with one
/// more behind them are read as the positions.
fn values_both_ways(
    alloc: Global,
    on: &Ordered<'_>,
    closed: bool,
    many: bool,
    bytes: &[u8],
) -> Result<bool, Refusal>
    requires { IsOverTable on.now }
{
    if on.order.corner_of_entry.len() != 4 || !all_below(on.order.entry_of_class.as_slice(), 4) {
        return Ok(false);
    }
    if !values_are_written(alloc, on, closed, many, bytes)? {
        return Ok(false);
    }
    let longer = with_one_behind(alloc, bytes)?;
    values_are_read(alloc, on, closed, many, longer.as_slice())
}

/// A tetrahedron.
static TETRAHEDRON: WorkedOrder = WorkedOrder {
    faces: 4,
    pairs: &TETRAHEDRON_PAIRS,
    corners: &[1, 2, 0, 10],
};

/// The same over a surface.
fn both_ways_over(
    rt: &impl Abort,
    alloc: Global,
    surface: &WorkedOrder,
    closed: bool,
    many: bool,
    bytes: &[u8],
) -> Result<bool, Refusal> {
    let worked = ordered(alloc, surface).expect(rt, "ample memory");
    let (sides, classes, order) = worked.expect(rt, "corners of the table");
    let on = Ordered {
        sides: &sides,
        classes: &classes,
        order: &order,
    };
    values_both_ways(alloc, &on, closed, many, bytes)
}

/// The bytes of the positions of two triangles by one parallelogram.
static KEPT_BY_ONE: [u8; 24] = [
    1, 1, 0, 1, 0, 1, 0, 1, 2, 0, 0, 1, 0, 0, 0, 0, 0, 0, 0, 0, 2, 0, 0, 0,
];

/// The bytes of the same by the mean of several.
static KEPT_BY_MEAN: [u8; 31] = [
    4, 1, 0, 1, 0, 1, 0, 1, 2, 0, 0, 1, 0, 0, 0, 0, 1, 255, 1, 17, 0, 0, 0, 0, 0, 0, 0, 2, 0, 0, 0,
];

/// The bytes of the positions of a tetrahedron by one parallelogram.
static LEFT_OUT_BY_ONE: [u8; 24] = [
    1, 1, 0, 1, 0, 0, 1, 0, 1, 1, 0, 1, 0, 1, 1, 0, 0, 0, 0, 0, 1, 0, 0, 0,
];

/// The bytes of the same by the mean of several.
static LEFT_OUT_BY_MEAN: [u8; 31] = [
    4, 1, 0, 1, 0, 0, 1, 0, 1, 1, 0, 1, 0, 1, 0, 0, 0, 0, 3, 1, 1, 48, 0, 0, 0, 0, 0, 1, 0, 0, 0,
];

#[test]
fn one_parallelogram_is_kept(rt: HostRuntime) -> Result<(), Fail> {
    let alloc = rt.alloc();
    let is_so = both_ways_over(&rt, alloc, &SQUARE_ORDER, false, false, &KEPT_BY_ONE)?;
    assert!(&rt; is_so, "by one");
    let is_so = both_ways_over(&rt, alloc, &SQUARE_ORDER, false, true, &KEPT_BY_MEAN)?;
    assert!(&rt; is_so, "by the mean");
    Ok(())
}

#[test]
fn three_parallelograms_are_left_out(rt: HostRuntime) -> Result<(), Fail> {
    let alloc = rt.alloc();
    let is_so = both_ways_over(&rt, alloc, &TETRAHEDRON, true, false, &LEFT_OUT_BY_ONE)?;
    assert!(&rt; is_so, "by one");
    let is_so = both_ways_over(&rt, alloc, &TETRAHEDRON, true, true, &LEFT_OUT_BY_MEAN)?;
    assert!(&rt; is_so, "by the mean");
    Ok(())
}
