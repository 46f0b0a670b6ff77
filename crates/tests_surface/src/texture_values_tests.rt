//! Texture coordinates over small surfaces. The values were computed by hand and by a plain program with numbers of any size.

ghost use Rattle.predict.specs.Surfaces.{IsOverTable};

use crate::predict_surface_tests::all_within;
use drc_base::Kind;
use predict::{Ordered, Wrap};
use std::alloc::Global;
use std::process::Abort;
use texture_values::{correct_texture, restore_texture};
use worked_surfaces::{SQUARE_ORDER, WorkedOrder, ordered};
use wrapped_vectors::Place;

/// A place by its coordinates.
fn place(at: [i32; 3]) -> Place {
    Place {
        x: at[0],
        y: at[1],
        z: at[2],
    }
}

/// The places of the four entries of a square of two faces, of which the last two are foretold over a side.
static PLACES: [Place; 4] = [
    Place { x: 0, y: 4, z: 0 },
    Place { x: 4, y: 0, z: 0 },
    Place { x: 4, y: 4, z: 0 },
    Place { x: 0, y: 0, z: 0 },
];

/// Corrections over the square, and the values that they restore between 0 and 9.
static CORRECTIONS: [i32; 8] = [0, -2, -2, 2, 0, 1, 0, 0];

static VALUES: [i32; 8] = [0, 8, 8, 0, 8, 9, 0, 0];

/// What is restored in place over an order, after it was seen that each entry has a place and two numbers.
fn restored_over(
    rt: &impl Abort,
    on: &Ordered<'_>,
    places: &[Place],
    range: (i32, i32),
    orientations: &[bool],
    values: &mut [i32],
) -> Result<(), Kind>
    requires { IsOverTable on.now }
{
    let wrap = Wrap::new(range.0, range.1).expect(rt, "a range");
    let entries = on.order.corner_of_entry.len();
    assert!(rt; entries < 100);
    assert!(rt; places.len() == entries);
    assert!(rt; values.len() == entries * 2);
    restore_texture(on, places, &wrap, orientations, values)
}

/// The same over a surface by its pairs of sides.
fn restored(
    rt: &impl Abort,
    alloc: Global,
    surface: &WorkedOrder,
    places: &[Place],
    range: (i32, i32),
    orientations: &[bool],
    values: &mut [i32],
) -> Result<(), Kind> {
    let worked = ordered(alloc, surface).expect(rt, "ample memory");
    let (sides, classes, order) = worked.expect(rt, "corners of the table");
    let on = Ordered {
        sides: &sides,
        classes: &classes,
        order: &order,
    };
    restored_over(rt, &on, places, range, orientations, values)
}

#[test]
fn a_square_is_restored(rt: HostRuntime) {
    let mut values = CORRECTIONS;
    let orientations = [false, false];
    let answer = restored(
        &rt,
        rt.alloc(),
        &SQUARE_ORDER,
        &PLACES,
        (0, 9),
        &orientations,
        &mut values,
    );
    assert!(&rt; answer.is_ok());
    assert!(&rt; values == VALUES);
}

#[test]
fn the_last_orientation_is_taken_first(rt: HostRuntime) {
    let mut values = CORRECTIONS;
    let orientations = [true, true, false];
    let answer = restored(
        &rt,
        rt.alloc(),
        &SQUARE_ORDER,
        &PLACES,
        (0, 9),
        &orientations,
        &mut values,
    );
    assert!(&rt; answer.is_ok());
    assert!(&rt; values == [0, 8, 8, 0, 8, 9, 8, 8]);
}

#[test]
fn one_orientation_is_too_few(rt: HostRuntime) {
    let mut values = CORRECTIONS;
    let answer = restored(
        &rt,
        rt.alloc(),
        &SQUARE_ORDER,
        &PLACES,
        (0, 9),
        &[false],
        &mut values,
    );
    assert!(&rt; matches!(answer, Err(Kind::FlagsShort)));
}

#[test]
fn great_numbers_are_a_fault_before_missing_orientations(rt: HostRuntime) {
    let places = [
        place([0, 0, 0]),
        place([0x2_0000, 0, 0]),
        place([0, 1, 0]),
        place([5, 5, 5]),
    ];
    let corrections = [0x2000_0000, 0, -0x2000_0000, 0, 0, 0, 0, 0];
    let range = (0, 0x2000_0000);
    let mut values = corrections;
    let answer = restored(
        &rt,
        rt.alloc(),
        &SQUARE_ORDER,
        &places,
        range,
        &[],
        &mut values,
    );
    assert!(&rt; matches!(answer, Err(Kind::Projection)));
    let mut values = corrections;
    let answer = restored(
        &rt,
        rt.alloc(),
        &SQUARE_ORDER,
        &places,
        range,
        &[true, true],
        &mut values,
    );
    assert!(&rt; matches!(answer, Err(Kind::Projection)));
}

#[test]
fn corners_at_one_place_take_no_orientation(rt: HostRuntime) {
    let places = [place([7, 7, 7]); 4];
    let mut values = [3, 4, 1, 1, -1, 0, 2, 2];
    let answer = restored(
        &rt,
        rt.alloc(),
        &SQUARE_ORDER,
        &places,
        (-9, 9),
        &[],
        &mut values,
    );
    assert!(&rt; answer.is_ok());
    assert!(&rt; values == [3, 4, 4, 5, 2, 4, 6, 7]);
}

/// The corrections and the orientations of values over an order, after it was seen that each entry has a place and two numbers of
/// the range.
fn corrected_over(
    rt: &impl Abort,
    alloc: Global,
    on: &Ordered<'_>,
    places: &[Place],
    range: (i32, i32),
    values: &[i32],
) -> Result<(Vec<i32>, Vec<bool>), Kind>
    requires { IsOverTable on.now }
{
    let wrap = Wrap::new(range.0, range.1).expect(rt, "a range");
    let entries = on.order.corner_of_entry.len();
    assert!(rt; entries < 100);
    assert!(rt; places.len() == entries);
    assert!(rt; values.len() == entries * 2);
    assert!(rt; all_within(values, range.0, range.1));
    correct_texture(alloc, on, places, &wrap, values).expect(rt, "ample memory")
}

/// The same over the square.
fn corrected(
    rt: &impl Abort,
    alloc: Global,
    places: &[Place],
    range: (i32, i32),
    values: &[i32],
) -> Result<(Vec<i32>, Vec<bool>), Kind> {
    let worked = ordered(alloc, &SQUARE_ORDER).expect(rt, "ample memory");
    let (sides, classes, order) = worked.expect(rt, "corners of the table");
    let on = Ordered {
        sides: &sides,
        classes: &classes,
        order: &order,
    };
    corrected_over(rt, alloc, &on, places, range, values)
}

/// Values over the square are written so.
fn is_written(
    rt: &impl Abort,
    alloc: Global,
    values: &[i32],
    corrections: &[i32],
    orientations: &[bool],
) {
    let answer = corrected(rt, alloc, &PLACES, (0, 9), values);
    let (made, chosen) = answer.expect(rt, "a projection");
    assert!(rt; made.as_slice() == corrections);
    assert!(rt; chosen.as_slice() == orientations);
}

#[test]
fn a_square_is_written(rt: HostRuntime) {
    is_written(&rt, rt.alloc(), &VALUES, &CORRECTIONS, &[false, false]);
}

#[test]
fn the_last_orientation_is_written_first(rt: HostRuntime) {
    let values = [0, 8, 8, 0, 8, 9, 8, 8];
    is_written(&rt, rt.alloc(), &values, &CORRECTIONS, &[true, false]);
}

#[test]
fn no_orientation_is_set_where_both_are_as_near(rt: HostRuntime) {
    let values = [0, 8, 8, 0, 4, 4, 3, 4];
    let corrections = [0, -2, -2, 2, -4, -4, 3, 4];
    is_written(&rt, rt.alloc(), &values, &corrections, &[false, false]);
}

#[test]
fn great_numbers_are_not_written(rt: HostRuntime) {
    let places = [
        place([0, 0, 0]),
        place([0x2_0000, 0, 0]),
        place([0, 1, 0]),
        place([5, 5, 5]),
    ];
    let values = [0x2000_0000, 0, 0, 0, 0, 0, 0, 0];
    let answer = corrected(&rt, rt.alloc(), &places, (0, 0x2000_0000), &values);
    assert!(&rt; matches!(answer, Err(Kind::Projection)));
}
