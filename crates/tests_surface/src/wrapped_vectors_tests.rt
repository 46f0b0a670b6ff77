//! Sums, products and roots near the ends of 64 bits. The roots were computed by a plain program with numbers of any size.

use std::process::Abort;
use wrapped_vectors::{
    Place, Vector, apart, cross, difference, dot, product, root_of, squared, sum, vector_at,
    vector_sum,
};

/// The least and the greatest number of 64 bits.
const LEAST: i64 = -0x8000_0000_0000_0000;

const GREATEST: i64 = 0x7fff_ffff_ffff_ffff;

/// Numbers and the whole parts of their roots.
static ROOTS: [(u64, u64); 14] = [
    (0, 0),
    (1, 1),
    (3, 1),
    (4, 2),
    (8, 2),
    (9, 3),
    (256, 16),
    (0xffff_ffff, 0xffff),
    (0x1_0000_0000, 0x1_0000),
    (1_000_000_000_000, 1_000_000),
    (0x7fff_ffff_ffff_ffff, 3_037_000_499),
    (0xffff_fffe_0000_0000, 0xffff_fffe),
    (0xffff_fffe_0000_0001, 0xffff_ffff),
    (0xffff_ffff_ffff_ffff, 0xffff_ffff),
];

/// A vector has these components.
fn is_vector(rt: &impl Abort, v: Vector, x: i64, y: i64, z: i64) {
    assert!(rt; v.x == x && v.y == y && v.z == z);
}

#[test]
fn roots_of_numbers(rt: HostRuntime) {
    for (x, root) in ROOTS.iter() {
        assert!(&rt; root_of(*x) == *root, "{x}");
    }
}

#[test]
fn numbers_wrap(rt: HostRuntime) {
    assert!(&rt; sum(GREATEST, 1) == LEAST && difference(LEAST, 1) == GREATEST);
    assert!(&rt; product(GREATEST, 2) == -2 && product(LEAST, -1) == LEAST);
}

#[test]
fn vectors_wrap(rt: HostRuntime) {
    let great = vector_at(GREATEST, LEAST, 1);
    is_vector(
        &rt,
        vector_sum(great, vector_at(1, -1, -1)),
        LEAST,
        GREATEST,
        0,
    );
    assert!(&rt; dot(great, vector_at(2, 2, 7)) == 5);
    assert!(&rt; squared(vector_at(0x1_0000_0000, 3, 4)) == 25);
    assert!(&rt; squared(vector_at(0x8000_0000, 0x8000_0000, 0)) == 0x8000_0000_0000_0000);
}

#[test]
fn sides_of_a_face_have_a_cross_product(rt: HostRuntime) {
    let middle = Place { x: 0, y: 2, z: 0 };
    let next = Place { x: 2, y: 0, z: 0 };
    let previous = Place { x: 2, y: 2, z: 1 };
    is_vector(&rt, apart(next, middle), 2, -2, 0);
    is_vector(
        &rt,
        cross(apart(next, middle), apart(previous, middle)),
        -2,
        -2,
        4,
    );
    let far = Place {
        x: -0x8000_0000,
        y: 0x7fff_ffff,
        z: 0,
    };
    is_vector(&rt, apart(far, next), -0x8000_0002, 0x7fff_ffff, 0);
}
