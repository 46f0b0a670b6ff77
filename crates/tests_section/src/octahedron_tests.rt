//! What no contract can say: that the definitions of the square of octahedral normals are the ones meant, on values that were
//! worked by hand, and on all values of two small squares.

ghost use Rattle.std.specs.Prelude.{IfSome};
ghost use Rattle.octahedron.specs.Square.{IsValue};
ghost use Rattle.octahedron.specs.Directions.{IsOnOctahedron};

use octahedron::{Direction, Point, Square, correct_differences, restore_differences};
use std::process::Abort;
use std::test::Fail;

/// The pair, if it is a value of the square.
fn value_of(square: Square, s: i32, t: i32) -> Option<Point>
    ensures { IfSome result (λ v. IsValue square.centre v) }
{
    let last = square.centre + square.centre;
    if 0 <= s && s <= last && 0 <= t && t <= last {
        Some(Point { s, t })
    } else {
        None
    }
}

/// The direction, if the sizes of its components add up to the centre.
fn direction_of(square: Square, x: i32, y: i32, z: i32) -> Option<Direction>
    ensures { IfSome result (λ v. IsOnOctahedron square.centre v) }
{
    let size = x.unsigned_abs() as u64 + (y.unsigned_abs() as u64 + z.unsigned_abs() as u64);
    if size == square.centre as u64 {
        Some(Direction { x, y, z })
    } else {
        None
    }
}

#[test]
fn squares_have_2_to_30_bits(rt: HostRuntime) {
    for (bits, centre) in [(2, 1), (3, 3), (4, 7), (30, 536870911)] {
        assert!(rt;
            Square::of_bits(bits).map(|q| q.centre) == Some(centre),
            "{bits}"
        );
    }
    assert!(rt; Square::of_bits(1).is_none() && Square::of_bits(31).is_none());
}

/// Bits, a predicted value, a correction and the value there; all values are in canonical spelling.
static CORRECTED: [(u8, [i32; 2], [i32; 2], [i32; 2]); 9] = [
    (4, [0, 0], [7, 7], [7, 7]),
    (4, [7, 7], [7, 0], [14, 7]),
    (4, [14, 7], [10, 7], [4, 0]),
    (4, [8, 2], [13, 4], [4, 0]),
    (4, [8, 2], [13, 1], [7, 0]),
    (4, [8, 2], [1, 4], [4, 3]),
    (4, [7, 0], [0, 0], [7, 0]),
    (3, [3, 6], [0, 3], [6, 6]),
    (3, [3, 6], [0, 0], [3, 6]),
];

#[test]
fn values_and_their_corrections(rt: HostRuntime) -> Result<(), Fail> {
    for (bits, [ps, pt], [ds, dt], [vs, vt]) in CORRECTED.iter() {
        let square = Square::of_bits(*bits).ok_or("refused")?;
        let predicted = value_of(square, *ps, *pt).ok_or("no value")?;
        let correction = value_of(square, *ds, *dt).ok_or("no correction")?;
        let value = value_of(square, *vs, *vt).ok_or("no value")?;
        assert_eq!(rt; square.restored_value(predicted, correction), value);
        assert_eq!(rt; square.correction_of(predicted, value), correction);
    }
    Ok(())
}

#[test]
fn differences_in_place(rt: HostRuntime) -> Result<(), Fail> {
    let square = Square::of_bits(4).ok_or("refused")?;
    let mut integers = [7, 7, 7, 0, 10, 7];
    assert!(rt; square.are_values(&integers));
    restore_differences(square, &mut integers);
    assert_eq!(rt; integers, [7, 7, 14, 7, 4, 0]);
    correct_differences(square, &mut integers);
    assert_eq!(rt; integers, [7, 7, 7, 0, 10, 7]);
    Ok(())
}

/// Directions on the octahedron of size 7, and their values.
static DIRECTIONS: [([i32; 3], [i32; 2]); 8] = [
    ([1, 1, -5], [8, 2]),
    ([0, 0, -7], [7, 0]),
    ([0, 0, 7], [7, 14]),
    ([-7, 0, 0], [14, 14]),
    ([-2, 3, -2], [12, 3]),
    ([-1, -4, 2], [2, 10]),
    ([-3, -4, 0], [0, 4]),
    ([-3, 0, -4], [4, 0]),
];

#[test]
fn directions_have_values(rt: HostRuntime) -> Result<(), Fail> {
    let square = Square::of_bits(4).ok_or("refused")?;
    for ([x, y, z], [s, t]) in DIRECTIONS.iter() {
        let direction = direction_of(square, *x, *y, *z).ok_or("not on the octahedron")?;
        assert_eq!(rt; square.octahedral_value(direction), Point { s: *s, t: *t });
    }
    Ok(())
}

/// Values of the square of 4 bits, and whether they are in canonical spelling.
static SPELLINGS: [([i32; 2], bool); 13] = [
    ([0, 0], false),
    ([0, 14], false),
    ([14, 0], false),
    ([14, 14], true),
    ([0, 10], false),
    ([0, 4], true),
    ([14, 3], false),
    ([14, 11], true),
    ([3, 14], false),
    ([11, 14], true),
    ([9, 0], false),
    ([5, 0], true),
    ([13, 1], true),
];

#[test]
fn spellings_and_ranges_are_tested(rt: HostRuntime) -> Result<(), Fail> {
    let square = Square::of_bits(4).ok_or("refused")?;
    for ([s, t], canonical) in SPELLINGS.iter() {
        let pairs = [7, 7, *s, *t];
        assert!(rt; square.are_values(&pairs), "{s} {t}");
        assert_eq!(rt; square.are_canonical(&pairs), *canonical, "{s} {t}");
    }
    assert!(rt;
        !square.are_values(&[0, 15]) && !square.are_values(&[-1, 0]) && square.are_values(&[])
    );
    Ok(())
}

#[test]
fn sizes_go_the_nearer_way(rt: HostRuntime) -> Result<(), Fail> {
    let square = Square::of_bits(4).ok_or("refused")?;
    for (s, t, size) in [(0, 0, 0), (7, 7, 14), (13, 4, 6), (8, 0, 7), (14, 14, 2)] {
        let correction = value_of(square, s, t).ok_or("no correction")?;
        assert_eq!(rt; square.size(correction), size);
    }
    Ok(())
}

/// The rule of the sides, on values: the canonical spelling of a value of the square with this centre.
fn canonical_spelling(centre: i32, v: Point) -> Option<Point> {
    let last = centre.checked_add(centre)?;
    if (v.s == 0 || v.s == last) && (v.t == 0 || v.t == last) {
        return Some(Point { s: last, t: last });
    }
    if v.s == 0 && v.t > centre || v.s == last && v.t < centre {
        return Some(Point {
            s: v.s,
            t: last.checked_sub(v.t)?,
        });
    }
    if v.t == last && v.s < centre || v.t == 0 && v.s > centre {
        return Some(Point {
            s: last.checked_sub(v.s)?,
            t: v.t,
        });
    }
    Some(v)
}

/// The value comes back at the predicted value: itself where that lies in the diamond, else in canonical spelling. And in the diamond a
/// correction is that of the value that it restores.
fn comes_back(rt: &impl Abort, square: Square, predicted: Point, value: Point) -> Result<(), Fail>
    requires predicted { IsValue square.centre predicted }
    requires value { IsValue square.centre value }
{
    let back = square.restored_value(predicted, square.correction_of(predicted, value));
    let centred = square.centred(predicted);
    if centred.s.abs() + centred.t.abs() <= square.centre {
        assert_eq!(rt; back, value);
        let restored = square.restored_value(predicted, value);
        assert_eq!(rt; square.correction_of(predicted, restored), value);
    } else {
        let spelled = canonical_spelling(square.centre, value).ok_or("too large")?;
        assert_eq!(rt; back, spelled);
    }
    Ok(())
}

/// All values of the square come back at this predicted value.
fn all_come_back(rt: &impl Abort, square: Square, predicted: Point) -> Result<(), Fail>
    requires { IsValue square.centre predicted }
{
    for s in 0..=square.centre + square.centre {
        for t in 0..=square.centre + square.centre {
            let value = value_of(square, s, t).ok_or("no value")?;
            comes_back(rt, square, predicted, value)?;
        }
    }
    Ok(())
}

#[test]
fn all_values_of_small_squares_come_back(rt: HostRuntime) -> Result<(), Fail> {
    for bits in [2, 3] {
        let square = Square::of_bits(bits).ok_or("refused")?;
        for s in 0..=square.centre + square.centre {
            for t in 0..=square.centre + square.centre {
                let predicted = value_of(square, s, t).ok_or("no value")?;
                all_come_back(&rt, square, predicted)?;
            }
        }
    }
    Ok(())
}
