//! What no contract can say: that the call succeeds, and that the definitions are the ones meant, on
//! draws that were computed apart.

use crate::shown::{has_counts, has_face, has_point};
use drc_gen::{GenKind, generate};
use mesh_model::CornerMesh;
use std::process::Abort;

/// A point with its number, and a face with its number.
type Shown<'a> = ((u32, &'a [i32]), (u32, [u32; 3]));

/// Asserts how many points and faces a mesh has, one point and one face.
fn shows(rt: &impl Abort, mesh: &CornerMesh, points: u32, faces: u32, shown: Shown) {
    let ((p, point), (f, face)) = shown;
    has_counts(rt, mesh, points, faces);
    has_point(rt, mesh, p, point);
    has_face(rt, mesh, f, face);
}

/// Points of a grid of three by three squares, with their numbers.
static GRID: [(u32, [i32; 3]); 4] = [
    (0, [0, 0, 80]),
    (1, [1, 0, 104]),
    (2, [2, 0, 619]),
    (4, [0, 1, 392]),
];

#[test]
fn makes_grids(rt: HostRuntime) {
    let grid = generate(rt.alloc(), GenKind::Grid, 3, 0).expect(&rt, "room");
    for (p, point) in GRID.iter() {
        shows(&rt, &grid, 16, 18, ((*p, point), (1, [0, 5, 4])));
    }
}

#[test]
fn makes_grids_with_holes(rt: HostRuntime) {
    let holes = generate(rt.alloc(), GenKind::Holes, 5, 1).expect(&rt, "room");
    shows(
        &rt,
        &holes,
        36,
        42,
        ((35, &[5, 5, 254]), (14, [10, 11, 17])),
    );
}

#[test]
fn makes_a_torus(rt: HostRuntime) {
    let torus = generate(rt.alloc(), GenKind::Torus, 3, 1).expect(&rt, "room");
    shows(&rt, &torus, 9, 18, ((8, &[2, 2, 859]), (17, [8, 0, 2])));
}

#[test]
fn makes_a_fan(rt: HostRuntime) {
    let fans = generate(rt.alloc(), GenKind::Fans, 3, 1).expect(&rt, "room");
    shows(&rt, &fans, 19, 9, ((18, &[18, 1, 637]), (8, [0, 17, 18])));
}

#[test]
fn makes_patches(rt: HostRuntime) {
    let seams = generate(rt.alloc(), GenKind::Seams, 3, 1).expect(&rt, "room");
    shows(&rt, &seams, 36, 18, ((35, &[3, 3, 0, 91]), (3, [4, 7, 6])));
}
