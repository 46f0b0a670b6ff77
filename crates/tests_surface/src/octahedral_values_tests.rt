//! Worked octahedral values by both predictions. The corrections, the flips and the values of entries that have corners are those of files
//! that Draco 1.5.5 wrote and read back; those of other entries were computed by hand.

ghost use Rattle.std.specs.Prelude.{◌≡◌, ◌%◌, ◌<◌, ℕ, All, length};

use drc_base::Memory;
use octahedral_values::{
    correct_differences, correct_normals, normals_round, restore_differences, restore_normals,
};
use octahedron::Square;
use std::alloc::Global;
use std::process::Abort;
use wrapped_vectors::{Place, Vector, vector_at};

/// Classes of corners, entries of classes and places of entries, and in a square of so many bits flips, corrections and the values that
/// they restore.
struct Worked {
    bits: u8,
    classes: [u32; 6],
    entry_of_class: [u32; 6],
    places: [[i32; 3]; 6],
    flips: [bool; 6],
    corrections: [i32; 12],
    values: [i32; 12],
}

/// Two faces with a seam between them, so that each corner has an entry of its own; no flip is set.
static SEAM: Worked = Worked {
    bits: 3,
    classes: [0, 1, 2, 3, 4, 5],
    entry_of_class: [0, 1, 2, 3, 4, 5],
    places: [
        [2, 2, 1],
        [0, 2, 0],
        [2, 0, 0],
        [0, 2, 0],
        [0, 0, 0],
        [2, 0, 0],
    ],
    flips: [false, false, false, false, false, false],
    corrections: [0, 3, 0, 3, 0, 3, 0, 0, 0, 0, 0, 0],
    values: [6, 6, 6, 6, 6, 6, 3, 6, 3, 6, 3, 6],
};

/// Two faces that share two entries, with all flips set. The last two entries have no corner, so their sums are zero vectors, whose
/// direction is along x; with a flip it is at a corner of the square.
static SHARED: Worked = Worked {
    bits: 4,
    classes: [0, 1, 2, 1, 3, 2],
    entry_of_class: [2, 0, 1, 3, 4, 5],
    places: [
        [0, 2, 0],
        [2, 0, 0],
        [2, 2, 1],
        [0, 0, 0],
        [5, 5, 5],
        [6, 6, 6],
    ],
    flips: [true, true, true, true, false, true],
    corrections: [13, 4, 13, 1, 1, 4, 0, 0, 0, 0, 0, 0],
    values: [4, 0, 7, 0, 4, 3, 7, 0, 7, 7, 14, 14],
};

/// A list of these integers.
fn list_of(rt: &impl Abort, alloc: Global, integers: &[i32]) -> Vec<i32> {
    let mut list = Vec::new(alloc);
    for x in integers {
        list.push(*x).expect(rt, "room");
    }
    list
}

/// The integers are those that are expected.
fn are_integers(rt: &impl Abort, integers: &[i32], expected: &[i32]) {
    assert!(rt; integers.len() == expected.len());
    for (x, y) in integers.iter().zip(expected.iter()) {
        assert!(rt; *x == *y);
    }
}

/// Corrections by the difference restore the values that are expected, and are those of these values.
fn is_restored(rt: &impl Abort, alloc: Global, bits: u8, corrections: &[i32], values: &[i32]) {
    let square = Square::of_bits(bits).expect(rt, "a square");
    let mut list = list_of(rt, alloc, corrections);
    let even = list.len() % 2 == 0;
    assert!(rt; even && square.are_values(&list));
    restore_differences(square, list.as_mut_slice());
    are_integers(rt, &list, values);
    let still = list.len() % 2 == 0;
    assert!(rt; still && square.are_values(&list));
    correct_differences(square, list.as_mut_slice());
    are_integers(rt, &list, corrections);
}

#[test]
fn differences_restore_and_correct(rt: HostRuntime) {
    is_restored(
        &rt,
        rt.alloc(),
        4,
        &[7, 7, 7, 0, 10, 7],
        &[7, 7, 14, 7, 4, 0],
    );
    is_restored(&rt, rt.alloc(), 4, &[], &[]);
}

/// The sums of the normals round the entries of these classes, with these places.
fn summed(
    alloc: Global,
    classes: &[u32],
    entry_of_class: &[u32],
    places: &[Place],
) -> Result<Vec<Vector>, Memory>
    requires whole { length classes.now % 3 ≡ 0 }
    requires classes { All (λ (k : ℕ). k < length entry_of_class.now) classes.now }
    requires entries { All (λ (e : ℕ). e < length places.now) entry_of_class.now }
{
    normals_round(alloc, classes, entry_of_class, places)
}

/// The sums of the normals round the entries.
fn sums_of(rt: &impl Abort, alloc: Global, w: &Worked) -> Vec<Vector> {
    let mut places = Vec::new(alloc);
    for p in w.places.iter() {
        places
            .push(Place {
                x: p[0],
                y: p[1],
                z: p[2],
            })
            .expect(rt, "room");
    }
    let count = places.len();
    assert!(rt; w.classes.iter().all(|k| (*k as usize) < 6));
    assert!(rt; w.entry_of_class.iter().all(|e| (*e as usize) < count));
    summed(alloc, &w.classes, &w.entry_of_class, places.as_slice()).expect(rt, "room")
}

/// Corrections by the geometric normal restore the values that are expected.
fn is_restored_by_normals(rt: &impl Abort, alloc: Global, w: &Worked) {
    let square = Square::of_bits(w.bits).expect(rt, "a square");
    let sums = sums_of(rt, alloc, w);
    let mut list = list_of(rt, alloc, &w.corrections);
    assert!(rt; sums.len() == 6 && list.len() == 12);
    assert!(rt; square.are_values(&list));
    restore_normals(square, sums.as_slice(), &w.flips, list.as_mut_slice());
    are_integers(rt, &list, &w.values);
}

/// The flips are those that are expected.
fn are_flips(rt: &impl Abort, flips: &[bool], expected: &[bool]) {
    assert!(rt; flips.len() == expected.len());
    for (x, y) in flips.iter().zip(expected.iter()) {
        assert!(rt; *x == *y);
    }
}

/// The flips and the corrections of the values are those that are expected.
fn is_corrected_by_normals(rt: &impl Abort, alloc: Global, w: &Worked) {
    let square = Square::of_bits(w.bits).expect(rt, "a square");
    let sums = sums_of(rt, alloc, w);
    let mut list = list_of(rt, alloc, &w.values);
    let mut flips = [false; 6];
    assert!(rt; sums.len() == 6 && list.len() == 12);
    assert!(rt; square.are_values(&list));
    correct_normals(square, sums.as_slice(), &mut flips, list.as_mut_slice());
    are_flips(rt, &flips, &w.flips);
    are_integers(rt, &list, &w.corrections);
}

#[test]
fn normals_restore_and_correct(rt: HostRuntime) {
    is_restored_by_normals(&rt, rt.alloc(), &SEAM);
    is_restored_by_normals(&rt, rt.alloc(), &SHARED);
    is_corrected_by_normals(&rt, rt.alloc(), &SEAM);
    is_corrected_by_normals(&rt, rt.alloc(), &SHARED);
}

#[test]
fn of_corrections_of_one_size_the_flipped_one_is_taken(rt: HostRuntime) {
    let square = Square::of_bits(4).expect(&rt, "a square");
    let mut flips = [false];
    let mut values = [7, 0];
    assert!(rt; square.are_values(&values));
    correct_normals(square, &[vector_at(0, 0, 0)], &mut flips, &mut values);
    are_flips(&rt, &flips, &[true]);
    are_integers(&rt, &values, &[0, 8]);
}
