//! Worked sums of normals and their directions. The values were computed by a plain program with numbers of any size, which adds up one
//! cross product for each corner.

ghost use Rattle.std.specs.Prelude.{◌≡◌, ◌%◌, ◌<◌, ℕ, All, length};

use normal_prediction::{add_normals, direction_of, opposite};
use octahedron::{Direction, Square};
use std::alloc::{AllocError, Global};
use std::process::Abort;
use wrapped_vectors::{Place, Vector, vector_at};

/// Places of entries, and the sums of normals that are expected of them.
struct Worked {
    places: [[i32; 3]; 4],
    sums: [[i64; 3]; 4],
}

/// Two faces, the first of them with a tip.
static TIP: Worked = Worked {
    places: [[0, 2, 0], [2, 0, 0], [2, 2, 1], [0, 0, 0]],
    sums: [[-2, -2, 8], [-2, -2, 8], [-2, -2, 4], [0, 0, 4]],
};

/// The corners of the greatest square, whose halves have normals that pass 64 bits.
static FAR: Worked = Worked {
    places: [
        [-0x8000_0000, 0x7fff_ffff, 0],
        [0x7fff_ffff, -0x8000_0000, 0],
        [0x7fff_ffff, 0x7fff_ffff, 0],
        [-0x8000_0000, -0x8000_0000, 0],
    ],
    sums: [
        [0, 0, -17_179_869_182],
        [0, 0, -17_179_869_182],
        [0, 0, -8_589_934_591],
        [0, 0, -8_589_934_591],
    ],
};

/// The classes of the corners of the two faces.
static CLASSES: [u32; 6] = [0, 1, 2, 1, 3, 2];

/// The entries of these classes.
static ENTRY_OF_CLASS: [u32; 4] = [2, 0, 1, 3];

/// Sums of normals, and their directions in the square of 4 bits.
static DIRECTIONS: [([i64; 3], [i32; 3]); 9] = [
    ([-2, -2, 8], [-1, -1, 5]),
    ([-2, -2, 4], [-1, -1, 5]),
    ([0, 0, 4], [0, 0, 7]),
    ([0, 0, 0], [7, 0, 0]),
    ([0, 0, -4], [0, 0, -7]),
    ([-2, -2, -8], [-1, -1, -5]),
    ([5, -3, -1], [3, -2, -2]),
    (
        [
            -0x8000_0000_0000_0000,
            -0x8000_0000_0000_0000,
            -0x8000_0000_0000_0000,
        ],
        [-2, -2, -3],
    ),
    (
        [0x7fff_ffff_ffff_ffff, 0, -0x8000_0000_0000_0000],
        [3, 0, -4],
    ),
];

/// Sums of normals whose sizes add up to about 2^29, and their directions in the square of 30 bits.
static FINE_DIRECTIONS: [([i64; 3], [i32; 3]); 6] = [
    ([0x2000_0000, 0, 0], [0x1fff_ffff, 0, 0]),
    ([0x1fff_fffd, 2, 1], [0x1fff_fffc, 1, 2]),
    ([0x2000_0000, 1, 0], [0x1fff_fffe, 0, 1]),
    ([0x3fff_ffff, -1, 0], [0x1fff_ffff, 0, 0]),
    ([0x4000_0000, -3, 5], [0x1fff_fffc, 0, 3]),
    (
        [123_456_789_012, -987_654_321, 55],
        [532_610_031, -4_260_879, 1],
    ),
];

/// The places of entries.
fn places_of(rt: &impl Abort, alloc: Global, at: &[[i32; 3]]) -> Vec<Place> {
    let mut places = Vec::new(alloc);
    for p in at {
        places
            .push(Place {
                x: p[0],
                y: p[1],
                z: p[2],
            })
            .expect(rt, "room");
    }
    places
}

/// The sums of normals of the entries of corners, by the corners' classes, with these places.
fn summed(
    alloc: Global,
    classes: &[u32],
    entry_of_class: &[u32],
    places: &[Place],
) -> Result<Vec<Vector>, AllocError>
    requires whole { length classes.now % 3 ≡ 0 }
    requires classes { All (λ (k : ℕ). k < length entry_of_class.now) classes.now }
    requires entries { All (λ (e : ℕ). e < length places.now) entry_of_class.now }
{
    let mut sums = vec![in alloc; vector_at(0, 0, 0); places.len()]?;
    add_normals(classes, entry_of_class, places, sums.as_mut_slice());
    Ok(sums)
}

/// The same, where the classes have entries and the entries places.
fn sums_at(
    rt: &impl Abort,
    alloc: Global,
    classes: &[u32],
    entry_of_class: &[u32],
    places: &[Place],
) -> Vec<Vector> {
    let kinds = entry_of_class.len();
    let count = places.len();
    assert!(rt; classes.len() % 3 == 0 && classes.iter().all(|k| (*k as usize) < kinds));
    assert!(rt; entry_of_class.iter().all(|e| (*e as usize) < count));
    summed(alloc, classes, entry_of_class, places).expect(rt, "room")
}

/// The sums are those that are expected.
fn is_summed(rt: &impl Abort, alloc: Global, w: &Worked) {
    let places = places_of(rt, alloc, &w.places);
    let sums = sums_at(rt, alloc, &CLASSES, &ENTRY_OF_CLASS, places.as_slice());
    assert!(rt; sums.len() == 4);
    for (v, sum) in sums.iter().zip(w.sums.iter()) {
        assert!(rt; v.x == sum[0] && v.y == sum[1] && v.z == sum[2]);
    }
}

#[test]
fn sums_normals_of_entries(rt: HostRuntime) {
    is_summed(&rt, rt.alloc(), &TIP);
    is_summed(&rt, rt.alloc(), &FAR);
}

/// A direction has these components.
fn is_direction(rt: &impl Abort, v: Direction, x: i32, y: i32, z: i32) {
    assert!(rt; v.x == x && v.y == y && v.z == z);
}

/// The direction of a sum, and the opposite one, are those that are expected.
fn is_directed(rt: &impl Abort, square: Square, sum: [i64; 3], at: [i32; 3]) {
    let v = direction_of(square, vector_at(sum[0], sum[1], sum[2]));
    is_direction(rt, v, at[0], at[1], at[2]);
    let w = opposite(square, v);
    is_direction(
        rt,
        w,
        at[0].wrapping_neg(),
        at[1].wrapping_neg(),
        at[2].wrapping_neg(),
    );
}

#[test]
fn directs_sums(rt: HostRuntime) {
    let square = Square::of_bits(4).expect(&rt, "a square");
    for (sum, at) in DIRECTIONS.iter() {
        is_directed(&rt, square, *sum, *at);
    }
    let fine = Square::of_bits(30).expect(&rt, "a square");
    for (sum, at) in FINE_DIRECTIONS.iter() {
        is_directed(&rt, fine, *sum, *at);
    }
}
