//! Worked triangles: the texture coordinates that their third corners are predicted, and orientations as bits. The values were computed
//! by a plain program with numbers of any size.

use std::process::Abort;
use texture_prediction::{
    Lacking, Pair, Projected, bits_to_orientations, orientations_to_bits, over_side, picked_by,
    project,
};
use wrapped_vectors::Place;

/// A third corner over a side: its place and those of the next corner and the previous one, the coordinates of these two, and what is
/// predicted where the orientation is set and where it isn't.
struct Worked {
    tip: [i32; 3],
    next: [i32; 3],
    previous: [i32; 3],
    at_next: [i32; 2],
    at_previous: [i32; 2],
    set: [i32; 2],
    unset: [i32; 2],
}

/// A right angle over the diagonal of a square.
static DIAGONAL: Worked = Worked {
    tip: [4, 4, 0],
    next: [0, 4, 0],
    previous: [4, 0, 0],
    at_next: [0, 8],
    at_previous: [8, 0],
    set: [0, 0],
    unset: [8, 8],
};

/// The same diagonal from the other side.
static DIAGONAL_TURNED: Worked = Worked {
    tip: [0, 0, 0],
    next: [4, 0, 0],
    previous: [0, 4, 0],
    at_next: [8, 0],
    at_previous: [0, 8],
    set: [8, 8],
    unset: [0, 0],
};

/// A triangle of which nothing is even.
static SKEW: Worked = Worked {
    tip: [5, 7, 9],
    next: [1, 2, 3],
    previous: [9, 1, 1],
    at_next: [30, -40],
    at_previous: [-17, 52],
    set: [111, 27],
    unset: [-72, -67],
};

/// A corner so far along a side of length 1 that a coordinate passes 32 bits.
static WRAPPED: Worked = Worked {
    tip: [32767, 0, 0],
    next: [0, 0, 0],
    previous: [1, 0, 0],
    at_next: [0, 0],
    at_previous: [131071, 0],
    set: [-163839, 0],
    unset: [-163839, 0],
};

/// A side so long that the square of its length passes 63 bits.
static LONGEST: Worked = Worked {
    tip: [-0x8000_0000, 5, 0],
    next: [-0x8000_0000, 0, 0],
    previous: [0x7fff_ffff, 0, 0],
    at_next: [0, 0],
    at_previous: [70000, 9],
    set: [-4, 34999],
    unset: [4, -34999],
};

/// The greatest coordinates beside a side of length 2^17.
static WIDEST: Worked = Worked {
    tip: [0, 1, 0],
    next: [0, 0, 0],
    previous: [0x2_0000, 0, 0],
    at_next: [0x1fff_ffff, 0],
    at_previous: [0, 0],
    set: [0x1fff_ffff, 4095],
    unset: [0x1fff_ffff, -4095],
};

/// The farthest corner along a side of length 2^21, and one far before it, where products wrap.
static FARTHEST: [Worked; 2] = [
    Worked {
        tip: [0x1f_ffff, 0, 0],
        next: [0, 0, 0],
        previous: [0x20_0000, 0, 0],
        at_next: [0, 0],
        at_previous: [1, 0],
        set: [0, 0],
        unset: [0, 0],
    },
    Worked {
        tip: [-0x8000_0000, 0, 0],
        next: [0, 0, 0],
        previous: [0x20_0000, 0, 0],
        at_next: [0, 0],
        at_previous: [1, 0],
        set: [-1024, 0],
        unset: [-1024, 0],
    },
];

/// A place by its coordinates.
fn place(at: [i32; 3]) -> Place {
    Place {
        x: at[0],
        y: at[1],
        z: at[2],
    }
}

/// A pair by its coordinates.
fn pair(at: [i32; 2]) -> Pair {
    Pair { u: at[0], v: at[1] }
}

/// A pair has these coordinates.
fn is_pair(rt: &impl Abort, x: Pair, at: [i32; 2]) {
    assert!(rt; x.u == at[0] && x.v == at[1]);
}

/// The corner is predicted so by the orientation that is the only one.
fn is_predicted(rt: &impl Abort, w: &Worked, orientation: bool, at: [i32; 2]) {
    let (tip, n, p) = (place(w.tip), place(w.next), place(w.previous));
    let flags = [orientation];
    let answer = over_side(tip, n, p, pair(w.at_next), pair(w.at_previous), &flags, 1);
    let (x, left) = answer.expect(rt, "a prediction");
    is_pair(rt, x, at);
    assert!(rt; left == 0);
}

/// Both candidates are those that are expected.
fn is_worked(rt: &impl Abort, w: &Worked) {
    is_predicted(rt, w, true, w.set);
    is_predicted(rt, w, false, w.unset);
}

#[test]
fn predicts_worked_corners(rt: HostRuntime) {
    is_worked(&rt, &DIAGONAL);
    is_worked(&rt, &DIAGONAL_TURNED);
    is_worked(&rt, &SKEW);
    is_worked(&rt, &WRAPPED);
    is_worked(&rt, &LONGEST);
    is_worked(&rt, &WIDEST);
    for w in FARTHEST.iter() {
        is_worked(&rt, w);
    }
}

#[test]
fn orientations_are_taken_from_the_back(rt: HostRuntime) {
    let (tip, n, p) = (place([4, 4, 0]), place([0, 4, 0]), place([4, 0, 0]));
    let (a, b) = (pair([0, 8]), pair([8, 0]));
    let flags = [true, false];
    let (x, left) = over_side(tip, n, p, a, b, &flags, 2).expect(&rt, "a prediction");
    is_pair(&rt, x, [8, 8]);
    assert!(&rt; left == 1);
    let (x, left) = over_side(tip, n, p, a, b, &flags, 1).expect(&rt, "a prediction");
    is_pair(&rt, x, [0, 0]);
    assert!(&rt; left == 0);
    let lacking = over_side(tip, n, p, a, b, &flags, 0);
    assert!(&rt; matches!(lacking, Err(Lacking::Flags)));
}

#[test]
fn no_orientation_is_taken_where_none_is_wanted(rt: HostRuntime) {
    let (tip, n) = (place([5, 7, 9]), place([1, 2, 3]));
    let a = pair([3, 4]);
    let (x, left) = over_side(tip, n, place([9, 1, 1]), a, a, &[], 0).expect(&rt, "equal");
    is_pair(&rt, x, [3, 4]);
    assert!(&rt; left == 0);
    let flags = [true];
    let (x, left) = over_side(tip, n, n, a, pair([5, 6]), &flags, 1).expect(&rt, "no side");
    is_pair(&rt, x, [3, 4]);
    assert!(&rt; left == 1);
}

/// Room is lacking for this corner, whether there is an orientation or not.
fn lacks_room(
    rt: &impl Abort,
    tip: [i32; 3],
    previous: [i32; 3],
    at_next: [i32; 2],
    at_previous: [i32; 2],
) {
    let (tip, n, p) = (place(tip), place([0, 0, 0]), place(previous));
    let (a, b) = (pair(at_next), pair(at_previous));
    let flags = [true];
    let with_flag = over_side(tip, n, p, a, b, &flags, 1);
    assert!(rt; matches!(with_flag, Err(Lacking::Room)));
    let without = over_side(tip, n, p, a, b, &flags, 0);
    assert!(rt; matches!(without, Err(Lacking::Room)));
}

#[test]
fn room_is_lacking_one_further(rt: HostRuntime) {
    lacks_room(&rt, [0, 1, 0], [0x2_0000, 0, 0], [0x2000_0000, 0], [0, 0]);
    lacks_room(&rt, [0, 1, 0], [0x2_0000, 0, 0], [0, -0x2000_0000], [0, 0]);
    lacks_room(&rt, [0x20_0000, 0, 0], [0x20_0000, 0, 0], [0, 0], [1, 0]);
}

#[test]
fn candidates_are_a_sum_and_a_difference(rt: HostRuntime) {
    let (tip, n, p) = (place([4, 4, 0]), place([0, 4, 0]), place([4, 0, 0]));
    match project(tip, n, p, pair([0, 8]), pair([8, 0])) {
        Projected::At(c) => {
            assert!(&rt; c.along_u == 128 && c.along_v == 128);
            assert!(&rt; c.across_u == -128 && c.across_v == -128 && c.square == 32);
            is_pair(&rt, picked_by(c, true), [0, 0]);
            is_pair(&rt, picked_by(c, false), [8, 8]);
        }
        _ => assert!(&rt; false, "candidates"),
    }
}

#[test]
fn orientations_and_bits(rt: HostRuntime) {
    let bits = [true, false, true, false, false, true];
    let orientations = [true, false, false, true, false, false];
    let mut flags = bits;
    bits_to_orientations(&mut flags);
    assert!(&rt; flags == orientations);
    orientations_to_bits(&mut flags);
    assert!(&rt; flags == bits);
    let mut none = [];
    bits_to_orientations(&mut none);
    orientations_to_bits(&mut none);
    assert!(&rt; none.len() == 0);
}
