//! What no contract can say: that geometries with octahedral normals are made, and that the squares meant are the ones tested, on
//! examples worked by hand.

ghost use Rattle.std.specs.Prelude.{◌≡◌, ◌%◌, Some, None};

use crate::shown::{has_point, is_fault, is_number, is_point};
use attr_heads::{Head, Quant};
use drc_base::{Kind, Refusal, Sequence};
use mesh_model::{Cloud, CornerMesh, Geometry, Renumber, matches};
use std::alloc::Global;
use std::process::Abort;

/// A head of normals in a square of so many bits.
fn normals(dtype: u8, comps: u8, bits: u8) -> Head
    ensures { result ≡ record { usage = 1; dtype = dtype; comps = comps; normalized = 1; id = 3; quant = None; octa = Some bits } }
{
    Head {
        usage: 1,
        dtype,
        comps,
        normalized: 1,
        id: 3,
        quant: None,
        octa: Some(bits),
    }
}

/// A mesh of one face and six integers, whose second one is `t`.
fn mesh(alloc: Global, head: Head, t: i32) -> Result<CornerMesh, Refusal>
    requires { 6 % head.comps ≡ 0 }
{
    let heads = vec![in alloc; head]?;
    let points = vec![in alloc; 0, t, 6, 0, 3, 3]?;
    CornerMesh::new(heads, points, vec![in alloc; [0, 1, 0]]?)
}

#[test]
fn makes_a_mesh_of_normals(rt: HostRuntime) {
    let m = mesh(rt.alloc(), normals(9, 2, 3), 6).expect(&rt, "a mesh");
    is_number(&rt, m.width() as u64, 2);
    has_point(&rt, &m, 0, &[0, 6]);
    has_point(&rt, &m, 1, &[6, 0]);
}

#[test]
fn makes_a_cloud_of_normals(rt: HostRuntime) {
    let heads = vec![in rt.alloc(); normals(9, 2, 30)].expect(&rt, "room");
    let points = vec![in rt.alloc(); 0x3fff_fffe, 0].expect(&rt, "room");
    let c = Cloud::new(heads, points).expect(&rt, "a cloud");
    assert!(rt; c.point_count() == 1);
    is_point(&rt, c.point(0), &[0x3fff_fffe, 0]);
}

/// Data types, bits and second integers of meshes of normals, and the fault of each.
static FAULTS: [(u8, u8, i32, Kind, u64); 7] = [
    (5, 1, 7, Kind::DataType, 0),
    (9, 0, 0, Kind::QuantBits, 0),
    (9, 1, 7, Kind::QuantBits, 0),
    (9, 31, 7, Kind::QuantBits, 0),
    (9, 3, 7, Kind::ValueRange, 1),
    (9, 3, -1, Kind::ValueRange, 1),
    (9, 2, 2, Kind::ValueRange, 2),
];

#[test]
fn refuses_the_first_fault_of_normals(rt: HostRuntime) {
    for (dtype, bits, t, kind, at) in FAULTS.iter() {
        let refusal = mesh(rt.alloc(), normals(*dtype, 2, *bits), *t).err();
        is_fault(&rt, refusal, *kind, *at);
    }
}

#[test]
fn refuses_normals_of_three_integers(rt: HostRuntime) {
    let refusal = mesh(rt.alloc(), normals(9, 3, 1), 7).err();
    is_fault(&rt, refusal, Kind::Components, 0);
}

/// A quantisation of two components.
fn quantisation(rt: &impl Abort, alloc: Global) -> Quant {
    let min = vec![in alloc; 0, 0].expect(rt, "room");
    Quant {
        bits: 11,
        range: 0x3f80_0000,
        min: Sequence::from_vec(min),
    }
}

/// A head that has a quantisation and a square.
fn both(rt: &impl Abort, alloc: Global) -> Head
    ensures { result.comps ≡ 2 }
{
    Head {
        usage: 1,
        dtype: 9,
        comps: 2,
        normalized: 1,
        id: 3,
        quant: Some(quantisation(rt, alloc)),
        octa: Some(3),
    }
}

#[test]
fn refuses_a_quantisation_beside_a_square(rt: HostRuntime) {
    let refusal = mesh(rt.alloc(), both(&rt, rt.alloc()), 6).err();
    is_fault(&rt, refusal, Kind::DataType, 0);
}

/// Bits of the square of a mesh of normals, and whether it is the one of three bits.
static SQUARES: [(u8, bool); 2] = [(3, true), (4, false)];

/// A mesh of normals in a square of so many bits.
fn mesh_in(rt: &impl Abort, alloc: Global, bits: u8) -> Geometry {
    Geometry::Mesh(mesh(alloc, normals(9, 2, bits), 6).expect(rt, "a mesh"))
}

/// Asserts whether a geometry is the mesh of normals in a square of three bits.
fn is_mesh_in_three_bits(rt: &impl Abort, alloc: Global, g: &Geometry, same: bool) {
    let map = Renumber {
        rows: Sequence::from_vec(vec![in alloc; (0, 0)].expect(rt, "room")),
    };
    let m = mesh_in(rt, alloc, 3);
    assert!(rt; matches(alloc, &m, g, &map).expect(rt, "room") == same);
}

#[test]
fn tells_squares_that_differ(rt: HostRuntime) {
    for (bits, same) in SQUARES.iter() {
        let g = mesh_in(&rt, rt.alloc(), *bits);
        is_mesh_in_three_bits(&rt, rt.alloc(), &g, *same);
    }
}
