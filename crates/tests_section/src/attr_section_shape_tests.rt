//! Octahedral normals and texture coordinates from positions are written as the bytes that another program gave for them, with ample
//! memory.

ghost use Rattle.std.specs.Prelude.{◌≡◌, [], ◌∷◌, None, IfOk, length};
ghost use Rattle.predict.specs.Surfaces.{IsOverTable};
ghost use Rattle.attr_section.specs.Orders.{HasEntries};
ghost use Rattle.attr_section.specs.Examples.{example_head, points_head, points, shape_head, shape_positions, shape_values};

use attr_heads::Head;
use attr_section::{DecoderHead, Ordered, ReadPositions, Values, write_decoder};
use drc_base::{Refusal, Sequence};
use std::alloc::{AllocError, Global};
use std::process::Abort;
use std::test::Fail;
use worked_surfaces::{SQUARE_ORDER, all_below, ordered};

/// The head of octahedral points of four bits.
fn points_head() -> Head
    ensures { result ≡ points_head }
{
    Head {
        usage: 1,
        dtype: 9,
        comps: 2,
        normalized: 0,
        id: 0,
        quant: None,
        octa: Some(4),
    }
}

/// Octahedral points, in canonical spelling, or the first one in a corner of the square.
fn points(alloc: Global, corner: bool) -> Result<Values, AllocError>
    ensures { IfOk result (λ v. v ≡ points corner) }
{
    let values = if corner {
        [0, 0, 14, 7, 4, 0]
    } else {
        [7, 7, 14, 7, 4, 0]
    };
    Ok(Values {
        values: Sequence::from_vec(Vec::from_slice(alloc, &values)?),
        predict: 6,
        at: 0,
    })
}

/// The head of positions.
fn positions_head() -> Head
    ensures { result ≡ example_head }
{
    Head {
        usage: 0,
        dtype: 5,
        comps: 3,
        normalized: 0,
        id: 0,
        quant: None,
        octa: None,
    }
}

/// Positions of two triangles.
fn positions(alloc: Global, textured: bool) -> Result<Values, AllocError>
    ensures { IfOk result (λ v. v ≡ shape_positions textured) }
{
    let values = if textured {
        [0, 4, 0, 4, 0, 0, 4, 4, 0, 0, 0, 0]
    } else {
        [0, 2, 0, 2, 0, 0, 2, 2, 1, 0, 0, 0]
    };
    Ok(Values {
        values: Sequence::from_vec(Vec::from_slice(alloc, &values)?),
        predict: 1,
        at: 0,
    })
}

/// The head of texture coordinates, or of normals.
fn shape_head(textured: bool) -> Head
    ensures { result ≡ shape_head textured }
{
    if textured {
        Head {
            usage: 3,
            dtype: 5,
            comps: 2,
            normalized: 0,
            id: 0,
            quant: None,
            octa: None,
        }
    } else {
        points_head()
    }
}

/// Texture coordinates, or normals.
fn shape_values(alloc: Global, textured: bool) -> Result<Values, AllocError>
    ensures { IfOk result (λ v. v ≡ shape_values textured) }
{
    let values = if textured {
        [0, 8, 8, 0, 8, 9, 0, 0]
    } else {
        [4, 0, 7, 0, 4, 3, 7, 0]
    };
    Ok(Values {
        values: Sequence::from_vec(Vec::from_slice(alloc, &values)?),
        predict: if textured { 5 } else { 6 },
        at: 0,
    })
}

/// The decoder of octahedral points.
fn points_decoder(alloc: Global) -> Result<DecoderHead, AllocError>
    ensures { IfOk result (λ d. d.heads ≡ points_head ∷ []) }
{
    Ok(DecoderHead {
        data_id: None,
        corner: false,
        degree: false,
        heads: Sequence::from_vec(vec![in alloc; points_head()]?),
    })
}

/// The decoder of positions and what is predicted from them.
fn shape_decoder(alloc: Global, textured: bool) -> Result<DecoderHead, AllocError>
    ensures { IfOk result (λ d. d.heads ≡ example_head ∷ shape_head textured ∷ []) }
{
    Ok(DecoderHead {
        data_id: Some(255),
        corner: false,
        degree: false,
        heads: Sequence::from_vec(vec![in alloc; positions_head(), shape_head(textured)]?),
    })
}

/// Whether octahedral points of a sequential stream are written as these bytes.
fn points_are_written(alloc: Global, corner: bool, bytes: &[u8]) -> Result<bool, Refusal> {
    let h = points_decoder(alloc)?;
    let given = vec![in alloc; points(alloc, corner)?]?;
    let mut written = Vec::new(alloc);
    write_decoder(
        alloc,
        &mut written,
        &h,
        &given,
        true,
        None,
        ReadPositions::NotYet,
    )?;
    Ok(written.as_slice() == bytes)
}

/// Whether positions on two triangles and what is predicted from them are written as these bytes.
fn shapes_are_written(
    alloc: Global,
    on: &Ordered<'_>,
    textured: bool,
    bytes: &[u8],
) -> Result<bool, Refusal>
    requires over { IsOverTable on.now }
    requires entries { length on.now.order.now.corner_of_entry ≡ 4 }
    requires within { HasEntries on.now }
{
    let h = shape_decoder(alloc, textured)?;
    let given = vec![in alloc; positions(alloc, textured)?, shape_values(alloc, textured)?]?;
    let mut written = Vec::new(alloc);
    write_decoder(
        alloc,
        &mut written,
        &h,
        &given,
        true,
        Some(on),
        ReadPositions::NotYet,
    )?;
    Ok(written.as_slice() == bytes)
}

/// The same where each class has one of four entries.
fn shapes_on(alloc: Global, on: &Ordered<'_>, textured: bool, bytes: &[u8]) -> Result<bool, Refusal>
    requires { IsOverTable on.now }
{
    if on.order.corner_of_entry.len() != 4 || !all_below(on.order.entry_of_class.as_slice(), 4) {
        return Ok(false);
    }
    shapes_are_written(alloc, on, textured, bytes)
}

/// The same on the two triangles.
fn shapes_of_two_triangles(
    rt: &impl Abort,
    alloc: Global,
    textured: bool,
    bytes: &[u8],
) -> Result<bool, Refusal> {
    let worked = ordered(alloc, &SQUARE_ORDER).expect(rt, "ample memory");
    let (sides, classes, order) = worked.expect(rt, "corners of the table");
    let on = Ordered {
        sides: &sides,
        classes: &classes,
        order: &order,
    };
    shapes_on(alloc, &on, textured, bytes)
}

/// Points by the difference: the prediction, the transform, no block, one byte for each correction, these, the square and its bits.
static DIFFERENCES: [u8; 19] = [0, 3, 0, 1, 7, 7, 7, 0, 10, 7, 15, 0, 0, 0, 7, 0, 0, 0, 4];

/// Points of which one is in another spelling, by no prediction.
static NOT_CANONICAL: [u8; 10] = [254, 0, 1, 0, 0, 28, 14, 8, 0, 4];

/// Positions of two triangles, and normals.
static NORMALS: [u8; 49] = [
    1, 1, 0, 1, 0, 1, 0, 1, 2, 0, 0, 1, 2, 0, 0, 0, 0, 0, 0, 0, 2, 0, 0, 0, 6, 3, 0, 1, 13, 4, 13,
    1, 1, 4, 0, 0, 15, 0, 0, 0, 7, 0, 0, 0, 1, 2, 64, 64, 4,
];

/// Positions of two triangles, and texture coordinates.
static TEXTURE: [u8; 52] = [
    1, 1, 0, 1, 0, 1, 0, 1, 2, 0, 0, 1, 0, 0, 0, 0, 0, 0, 0, 0, 4, 0, 0, 0, 5, 1, 0, 1, 0, 3, 3, 4,
    0, 2, 0, 0, 2, 0, 0, 0, 128, 2, 128, 112, 0, 0, 0, 0, 9, 0, 0, 0,
];

#[test]
fn octahedral_points_in_a_row(rt: HostRuntime) -> Result<(), Fail> {
    let alloc = rt.alloc();
    assert!(&rt;
        points_are_written(alloc, false, &DIFFERENCES)?,
        "by the difference"
    );
    assert!(&rt; points_are_written(alloc, true, &NOT_CANONICAL)?, "by none");
    Ok(())
}

#[test]
fn normals_and_texture_coordinates(rt: HostRuntime) -> Result<(), Fail> {
    let alloc = rt.alloc();
    let is_so = shapes_of_two_triangles(&rt, alloc, false, &NORMALS)?;
    assert!(&rt; is_so, "normals");
    let is_so = shapes_of_two_triangles(&rt, alloc, true, &TEXTURE)?;
    assert!(&rt; is_so, "texture coordinates");
    Ok(())
}
