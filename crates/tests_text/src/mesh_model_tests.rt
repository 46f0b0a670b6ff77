//! What no contract can say: that the calls succeed, and that the definitions are the ones meant, on
//! examples worked by hand.

ghost use Rattle.std.specs.Prelude.{◌≡◌, ◌%◌, ◌∷◌, [], length, nat_lt, IfOk, IsTrue};
ghost use Rattle.std.specs.List.{list_all};

use crate::shown::{are_faces, has_corner, has_point, is_fault, is_number, is_point, is_text};
use attr_heads::{Head, Quant};
use drc_base::{Kind, Refusal, Sequence};
use mesh_model::{
    AttrGroup, Cloud, CornerMesh, Geometry, GeometryView, MapRead, Renumber, assemble, map_text,
    matches, read_map,
};
use std::alloc::{AllocError, Global};
use std::process::Abort;

/// A head of positions of this type.
fn positions(dtype: u8) -> Head
    ensures { result ≡ record { usage = 0; dtype = dtype; comps = 3; normalized = 0; id = 0; quant = None; octa = None } }
{
    Head {
        usage: 0,
        dtype,
        comps: 3,
        normalized: 0,
        id: 0,
        quant: None,
        octa: None,
    }
}

/// A mesh of positions.
fn mesh(alloc: Global, dtype: u8, points: &[i32], faces: &[[u32; 3]]) -> Result<CornerMesh, Refusal>
    requires { length points.now % 3 ≡ 0 }
{
    let heads = vec![in alloc; positions(dtype)]?;
    CornerMesh::new(heads, points.to_vec(alloc)?, faces.to_vec(alloc)?)
}

/// A cloud of positions.
fn cloud(alloc: Global, dtype: u8, points: &[i32]) -> Result<Cloud, Refusal>
    requires { length points.now % 3 ≡ 0 }
{
    let heads = vec![in alloc; positions(dtype)]?;
    Cloud::new(heads, points.to_vec(alloc)?)
}

/// A renumbering.
fn renumber(rt: &impl Abort, alloc: Global, rows: &[(u32, u8)]) -> Renumber {
    Renumber {
        rows: Sequence::from_vec(rows.to_vec(alloc).expect(rt, "room")),
    }
}

const SQUARE: [i32; 12] = [0, 0, 0, 1, 0, 0, 1, 1, 0, 0, 1, 0];

/// The two faces of the square.
static SQUARE_FACES: [[u32; 3]; 2] = [[0, 1, 2], [0, 2, 3]];

/// The points of the square as a mesh of these faces.
fn square_with(rt: &impl Abort, alloc: Global, dtype: u8, faces: &[[u32; 3]]) -> Geometry {
    Geometry::Mesh(mesh(alloc, dtype, &SQUARE, faces).expect(rt, "a mesh"))
}

/// The square as a mesh.
fn square_mesh(rt: &impl Abort, alloc: Global) -> Geometry {
    square_with(rt, alloc, 5, &SQUARE_FACES)
}

/// These points as a cloud.
fn cloud_of(rt: &impl Abort, alloc: Global, dtype: u8, points: &[i32; 12]) -> Geometry {
    Geometry::Cloud(cloud(alloc, dtype, points).expect(rt, "a cloud"))
}

/// The square as a cloud.
fn square_cloud(rt: &impl Abort, alloc: Global) -> Geometry {
    cloud_of(rt, alloc, 5, &SQUARE)
}

/// Asserts whether these rows map a geometry to another one.
fn is_mapped(
    rt: &impl Abort,
    alloc: Global,
    a: &Geometry,
    b: &Geometry,
    rows: &[(u32, u8)],
    same: bool,
) {
    let map = renumber(rt, alloc, rows);
    assert!(rt; matches(alloc, a, b, &map).expect(rt, "room") == same);
}

/// Asserts of each of these lists of rows whether it maps a geometry to another one.
fn is_mapped_by(
    rt: &impl Abort,
    alloc: Global,
    a: &Geometry,
    b: &Geometry,
    table: &[(&[(u32, u8)], bool)],
) {
    for (rows, same) in table {
        is_mapped(rt, alloc, a, b, rows, *same);
    }
}

/// Rows for two faces, and whether they map the square to the turned one.
static MESH_MAPS: [(&[(u32, u8)], bool); 7] = [
    (&[(1, 0), (0, 1)], true),
    (&[(1, 0), (0, 0)], false),
    (&[(1, 0), (0, 4)], false),
    (&[(1, 0)], false),
    (&[(1, 0), (1, 0)], false),
    (&[(1, 0), (2, 1)], false),
    (&[(1, 0), (0, 1), (0, 1)], false),
];

/// The points of the turned square: those of the square, numbered backwards.
static BACKWARDS: [i32; 12] = [0, 1, 0, 1, 1, 0, 1, 0, 0, 0, 0, 0];

/// The faces of the turned square: those of the square exchanged, one of them turned once, of points that are numbered backwards.
static TURNED: [[u32; 3]; 2] = [[3, 1, 0], [2, 1, 3]];

/// Asserts which rows map a geometry to the turned square.
fn is_mapped_to_turned(rt: &impl Abort, alloc: Global, a: &Geometry) {
    let b = mesh(alloc, 5, &BACKWARDS, &TURNED).expect(rt, "a mesh");
    is_mapped_by(rt, alloc, a, &Geometry::Mesh(b), &MESH_MAPS);
}

#[test]
fn tells_meshes_that_are_the_same(rt: HostRuntime) {
    let a = square_mesh(&rt, rt.alloc());
    is_mapped_to_turned(&rt, rt.alloc(), &a);
}

const FACES_IN_ORDER: [(u32, u8); 2] = [(0, 0), (1, 0)];

/// Asserts whether the two faces of the square are in order those of a geometry.
fn is_square_mesh(rt: &impl Abort, alloc: Global, g: &Geometry, same: bool) {
    let square = square_mesh(rt, alloc);
    is_mapped(rt, alloc, &square, g, &FACES_IN_ORDER, same);
}

/// Data types and faces, and whether the two faces of the square are in order those of such a mesh of its points.
static SQUARE_MESHES: [(u8, [[u32; 3]; 2], bool); 3] = [
    (5, [[0, 1, 2], [0, 2, 3]], true),
    // Turned over.
    (5, [[0, 2, 1], [0, 2, 3]], false),
    // Another type.
    (3, [[0, 1, 2], [0, 2, 3]], false),
];

#[test]
fn tells_meshes_that_differ(rt: HostRuntime) {
    for (dtype, faces, same) in SQUARE_MESHES.iter() {
        let g = square_with(&rt, rt.alloc(), *dtype, faces);
        is_square_mesh(&rt, rt.alloc(), &g, *same);
    }
}

#[test]
fn tells_a_mesh_from_a_cloud(rt: HostRuntime) {
    let cloud = square_cloud(&rt, rt.alloc());
    is_square_mesh(&rt, rt.alloc(), &cloud, false);
}

const IN_ORDER: [(u32, u8); 4] = [(0, 0), (1, 0), (2, 0), (3, 0)];

/// Rows for four points, and whether they map the square to the cloud that has its first point last.
static CLOUD_MAPS: [(&[(u32, u8)], bool); 8] = [
    (&[(1, 0), (2, 0), (3, 0), (0, 0)], true),
    (&[(3, 0), (0, 0), (1, 0), (2, 0)], false),
    (&IN_ORDER, false),
    (&[(1, 0), (2, 0), (3, 0), (0, 1)], false),
    (&[(1, 0), (2, 0), (3, 0)], false),
    (&[(1, 0), (2, 0), (3, 0), (3, 0)], false),
    (&[(1, 0), (2, 0), (3, 0), (4, 0)], false),
    (&[(1, 0), (2, 0), (3, 0), (0, 0), (0, 0)], false),
];

/// The square with its first point last.
static FIRST_LAST: [i32; 12] = [1, 0, 0, 1, 1, 0, 0, 1, 0, 0, 0, 0];

/// Asserts which rows map a geometry to the cloud that has its first point last.
fn is_mapped_to_first_last(rt: &impl Abort, alloc: Global, a: &Geometry) {
    let b = cloud_of(rt, alloc, 5, &FIRST_LAST);
    is_mapped_by(rt, alloc, a, &b, &CLOUD_MAPS);
}

#[test]
fn tells_clouds_that_are_the_same(rt: HostRuntime) {
    let a = square_cloud(&rt, rt.alloc());
    is_mapped_to_first_last(&rt, rt.alloc(), &a);
}

/// Asserts whether the points of the square are in order those of a geometry.
fn is_square_cloud(rt: &impl Abort, alloc: Global, g: &Geometry, same: bool) {
    let square = square_cloud(rt, alloc);
    is_mapped(rt, alloc, &square, g, &IN_ORDER, same);
}

/// Data types and points, and whether the points of the square are in order those of such a cloud.
static SQUARE_CLOUDS: [(u8, [i32; 12], bool); 3] = [
    (5, [0, 0, 0, 1, 0, 0, 1, 1, 0, 0, 1, 0], true),
    // Another integer.
    (5, [0, 0, 0, 1, 0, 0, 1, 1, 0, 0, 1, 2], false),
    // Another type.
    (3, [0, 0, 0, 1, 0, 0, 1, 1, 0, 0, 1, 0], false),
];

#[test]
fn tells_clouds_that_differ(rt: HostRuntime) {
    for (dtype, points, same) in SQUARE_CLOUDS.iter() {
        let g = cloud_of(&rt, rt.alloc(), *dtype, points);
        is_square_cloud(&rt, rt.alloc(), &g, *same);
    }
}

#[test]
fn tells_a_cloud_from_a_mesh(rt: HostRuntime) {
    let mesh = square_mesh(&rt, rt.alloc());
    is_square_cloud(&rt, rt.alloc(), &mesh, false);
}

/// The square with its third point twice, and without its fourth.
static TWICE: [i32; 12] = [0, 0, 0, 1, 0, 0, 1, 1, 0, 1, 1, 0];

const THIRD_NAMED_TWICE: [(u32, u8); 4] = [(0, 0), (1, 0), (2, 0), (2, 0)];

/// Rows, and whether they map the square and the cloud that has its third point twice to one another.
static MAPS_TO_TWICE: [(&[(u32, u8)], bool); 2] = [(&IN_ORDER, false), (&THIRD_NAMED_TWICE, false)];

/// Rows, and whether they map the cloud that has the third point twice to itself.
static MAPS_OF_TWICE: [(&[(u32, u8)], bool); 3] = [
    (&IN_ORDER, true),
    (&[(0, 0), (1, 0), (3, 0), (2, 0)], true),
    (&THIRD_NAMED_TWICE, false),
];

/// Asserts which rows map the square and the cloud that has its third point twice to one another.
fn differs_from_square(rt: &impl Abort, alloc: Global, twice: &Geometry) {
    let four = square_cloud(rt, alloc);
    is_mapped_by(rt, alloc, &four, twice, &MAPS_TO_TWICE);
    is_mapped_by(rt, alloc, twice, &four, &MAPS_TO_TWICE);
}

#[test]
fn counts_equal_points_of_clouds(rt: HostRuntime) {
    let twice = cloud_of(&rt, rt.alloc(), 5, &TWICE);
    differs_from_square(&rt, rt.alloc(), &twice);
    is_mapped_by(&rt, rt.alloc(), &twice, &twice, &MAPS_OF_TWICE);
}

/// The places of the corners of a square, and the first one again.
fn places(alloc: Global) -> Result<Sequence<i32>, AllocError>
    ensures { IfOk result (λ s. s ≡ PLACES) }
{
    Ok(Sequence::from_vec(PLACES.to_vec(alloc)?))
}

const PLACES: [i32; 15] = [0, 0, 0, 1, 0, 0, 1, 1, 0, 0, 1, 0, 0, 0, 0];

/// The mesh of three faces whose corners have these vertices, and the vertices these entries of the places.
fn placed(alloc: Global, of_corner: &[u32], entry_of: &[u32]) -> Result<CornerMesh, Refusal>
    requires corners { length of_corner.now ≡ 9 }
    requires vertices { IsTrue (list_all (λ v. nat_lt v (length entry_of.now)) of_corner.now) }
    requires entries { IsTrue (list_all (λ e. nat_lt e 5) entry_of.now) }
{
    let heads = vec![in alloc; positions(5)]?;
    let values = vec![in alloc; places(alloc)?]?;
    let group = AttrGroup {
        of_corner,
        entry_of,
        values: values.as_slice(),
    };
    let groups = vec![in alloc; group]?;
    assemble(alloc, heads, groups.as_slice(), 3)
}

/// The faces of the meshes whose equal rows are merged.
static MERGED: [[u32; 3]; 3] = [[0, 1, 2], [0, 2, 3], [0, 2, 3]];

/// Asserts that a mesh has four points, this second one, and faces whose equal rows are merged.
fn is_merged(rt: &impl Abort, m: &CornerMesh, second: &[i32]) {
    are_faces(rt, m.faces(), &MERGED);
    is_number(rt, m.point_count() as u64, 4);
    has_point(rt, m, 1, second);
}

/// With the vertices and their entries in the order of their first corners.
#[test]
fn merges_equal_rows_in_order_of_first_occurrence(rt: HostRuntime) {
    let ordered = [0, 1, 2, 0, 2, 3, 4, 2, 3];
    let m = placed(rt.alloc(), &ordered, &[0, 1, 2, 3, 4]).expect(&rt, "a mesh");
    is_merged(&rt, &m, &[1, 0, 0]);
}

/// With the vertices in the order of their first corners, and their entries backwards.
#[test]
fn merges_equal_rows_of_entries_in_another_order(rt: HostRuntime) {
    let ordered = [0, 1, 2, 0, 2, 3, 4, 2, 3];
    let m = placed(rt.alloc(), &ordered, &[4, 3, 2, 1, 0]).expect(&rt, "a mesh");
    is_merged(&rt, &m, &[0, 1, 0]);
}

/// With the first vertex and the last one exchanged.
#[test]
fn merges_equal_rows_of_vertices_in_another_order(rt: HostRuntime) {
    let other = [4, 1, 2, 4, 2, 3, 0, 2, 3];
    let m = placed(rt.alloc(), &other, &[0, 1, 2, 3, 4]).expect(&rt, "a mesh");
    is_merged(&rt, &m, &[1, 0, 0]);
}

/// The faces of the places in order, with labels that part the third point.
fn labelled(alloc: Global) -> Result<CornerMesh, Refusal> {
    let label = Head {
        usage: 4,
        dtype: 2,
        comps: 1,
        normalized: 0,
        id: 1,
        quant: None,
        octa: None,
    };
    let heads = vec![in alloc; positions(5), label]?;
    let values = vec![in alloc; places(alloc)?]?;
    let labels = vec![in alloc; Sequence::from_vec(vec![in alloc; 7, 9]?)]?;
    let placed = AttrGroup {
        of_corner: &[0, 1, 2, 0, 2, 3, 4, 2, 3],
        entry_of: &[0, 1, 2, 3, 4],
        values: values.as_slice(),
    };
    let parted = AttrGroup {
        of_corner: &[0, 0, 0, 0, 1, 0, 0, 0, 0],
        entry_of: &[0, 1],
        values: labels.as_slice(),
    };
    let groups = vec![in alloc; placed, parted]?;
    assemble(alloc, heads, groups.as_slice(), 3)
}

/// The faces of the places in order, where labels part the third point.
static PARTED: [[u32; 3]; 3] = [[0, 1, 2], [0, 3, 4], [0, 2, 4]];

#[test]
fn parts_corners_where_groups_part_them(rt: HostRuntime) {
    let m = labelled(rt.alloc()).expect(&rt, "a mesh");
    are_faces(&rt, m.faces(), &PARTED);
    has_corner(&rt, &m, 1, 2, &[0, 1, 0, 7]);
}

#[test]
fn parts_points_where_groups_part_corners(rt: HostRuntime) {
    let m = labelled(rt.alloc()).expect(&rt, "a mesh");
    is_number(&rt, m.point_count() as u64, 5);
    has_point(&rt, &m, 2, &[1, 1, 0, 7]);
    has_point(&rt, &m, 3, &[1, 1, 0, 9]);
}

/// Meshes of two points and two faces, by data type, the second integer and the last point of a face, and the fault of each.
static FAULTS: [(u8, i32, u32, Kind, u64); 5] = [
    (7, 256, 1, Kind::DataType, 0),
    (9, 256, 1, Kind::DataType, 0),
    (2, 256, 1, Kind::IndexRange, 1),
    (2, 256, 0, Kind::ValueRange, 1),
    (1, -129, 0, Kind::ValueRange, 1),
];

/// What a mesh of two points and two faces is refused for.
fn refusal_of(alloc: Global, dtype: u8, y: i32, last: u32) -> Option<Refusal> {
    mesh(alloc, dtype, &[0, y, 0], &[[0, 0, 0], [0, 0, last]]).err()
}

#[test]
fn refuses_the_first_fault(rt: HostRuntime) {
    for (dtype, y, last, kind, at) in FAULTS.iter() {
        is_fault(&rt, refusal_of(rt.alloc(), *dtype, *y, *last), *kind, *at);
    }
}

/// Rows of a map of the two faces of the square.
static ROWS: [(u32, u8); 2] = [(10, 0), (0, 2)];

/// The text of the map of the square with those rows.
fn square_map(rt: &impl Abort, alloc: Global) -> Vec<u8> {
    let g = square_mesh(rt, alloc);
    let map = renumber(rt, alloc, &ROWS);
    map_text(alloc, &g, &map).expect(rt, "room")
}

#[test]
fn writes_the_rows_of_a_map(rt: HostRuntime) {
    let text = square_map(&rt, rt.alloc());
    is_text(&rt, text.as_slice(), b"map mesh 2\n10 0\n0 2\n");
}

/// Asserts which rows a map has.
fn has_rows(rt: &impl Abort, map: &Renumber, rows: &[(u32, u8)]) {
    assert_eq!(rt; map.rows.as_slice(), rows);
}

#[test]
fn reads_the_rows_that_are_written_of_a_map(rt: HostRuntime) {
    let text = square_map(&rt, rt.alloc());
    let read = read_map(rt.alloc(), text.as_slice()).expect(&rt, "a map");
    has_rows(&rt, &read.rows, &ROWS);
}

/// Texts that begin with a map: whether it is one of clouds, its only row, and its end.
static MAPS: [(&[u8], bool, (u32, u8), u64); 3] = [
    (b"map mesh 1\n10 0\n0 2\n", false, (10, 0), 16),
    (
        b"map cloud 1\n4294967295 2\n\xff",
        true,
        (0xffff_ffff, 2),
        25,
    ),
    (b"map mesh 1\n0 1\n", false, (0, 1), 15),
];

/// Asserts whether the map with which a text begins is one of clouds, and its end.
fn is_map(rt: &impl Abort, map: &MapRead, cloud: bool, end: u64) {
    assert!(rt; map.cloud == cloud);
    is_number(rt, map.end, end);
}

#[test]
fn reads_the_row_of_a_map(rt: HostRuntime) {
    for (text, cloud, row, end) in MAPS.iter() {
        let map = read_map(rt.alloc(), text).expect(&rt, "a map");
        is_map(&rt, &map, *cloud, *end);
        has_rows(&rt, &map.rows, &[*row]);
    }
}

/// Texts that begin with no map, and their faults.
static FAULTY_MAPS: [(&[u8], Kind, u64); 16] = [
    (b"", Kind::MapForm, 1),
    (b"map  mesh 1\n0 0\n", Kind::MapForm, 1),
    (b"map mesh \n", Kind::MapForm, 1),
    (b"map mesh 0", Kind::MapForm, 1),
    (b"map mesh 01\n0 0\n", Kind::MapForm, 1),
    (b"map mesh 1\r\n0 0\r\n", Kind::MapForm, 1),
    (b"map mesh 4294967296\n", Kind::MapForm, 1),
    (b"map mesh 4194305\n", Kind::FaceLimit, 1),
    (b"map cloud 4194305\n0 3\n", Kind::PointLimit, 1),
    (b"map mesh 4194304\n", Kind::MapForm, 2),
    (b"map mesh 1\n0 3\n", Kind::MapForm, 2),
    (b"map mesh 1\n0  0\n", Kind::MapForm, 2),
    (b"map cloud 1\n4294967296 0\n", Kind::MapForm, 2),
    (b"map mesh 2\n0 0\n00 0\n", Kind::MapForm, 3),
    (b"map mesh 2\n0 0\n1 0", Kind::MapForm, 3),
    (b"map mesh 2\n0 0\n", Kind::MapForm, 3),
];

#[test]
fn refuses_a_map_at_its_first_faulty_line(rt: HostRuntime) {
    for (text, kind, at) in FAULTY_MAPS.iter() {
        is_fault(&rt, read_map(rt.alloc(), text).err(), *kind, *at);
    }
}

/// The head of the square.
fn square_heads(rt: &impl Abort, alloc: Global) -> Vec<Head>
    ensures { result.items ≡ record { usage = 0; dtype = 5; comps = 3; normalized = 0; id = 0; quant = None; octa = None } ∷ [] }
{
    vec![in alloc; positions(5)].expect(rt, "room")
}

/// Asserts that what is lent has the head and the points of the square, and so many faces.
fn lends_square(rt: &impl Abort, view: &GeometryView<'_>, faces: u32) {
    is_number(rt, view.face_count() as u64, faces as u64);
    is_number(rt, view.width() as u64, 3);
    is_number(rt, view.heads().len() as u64, 1);
    assert!(rt; view.point_count() == 4);
    is_point(rt, view.point(2), &[1, 1, 0]);
}

/// Asserts that what is lent is the mesh of the square.
fn lends_square_mesh(rt: &impl Abort, alloc: Global, view: &GeometryView<'_>) {
    assert!(rt; view.is_mesh());
    are_faces(rt, view.faces().expect(rt, "faces"), &SQUARE_FACES);
    let copy = view.copied(alloc).expect(rt, "room");
    is_square_mesh(rt, alloc, &copy, true);
}

#[test]
fn lends_a_mesh(rt: HostRuntime) {
    let heads = square_heads(&rt, rt.alloc());
    let faces = Some(SQUARE_FACES.as_slice());
    let view = GeometryView::new(heads.as_slice(), &SQUARE, faces).expect(&rt, "a mesh");
    lends_square(&rt, &view, 2);
    lends_square_mesh(&rt, rt.alloc(), &view);
}

/// Asserts that what is lent is the cloud of the square.
fn lends_square_cloud(rt: &impl Abort, alloc: Global, view: &GeometryView<'_>) {
    assert!(rt; !view.is_mesh());
    assert!(rt; view.faces().is_none());
    let copy = view.copied(alloc).expect(rt, "room");
    is_square_cloud(rt, alloc, &copy, true);
}

#[test]
fn lends_a_cloud(rt: HostRuntime) {
    let heads = square_heads(&rt, rt.alloc());
    let view = GeometryView::new(heads.as_slice(), &SQUARE, None).expect(&rt, "a cloud");
    lends_square(&rt, &view, 0);
    lends_square_cloud(&rt, rt.alloc(), &view);
}

/// A head that is quantised.
fn quantised(rt: &impl Abort, alloc: Global) -> Head {
    let min = vec![in alloc; 0, 0xbf80_0000].expect(rt, "room");
    let quant = Quant {
        bits: 11,
        range: 0x3f80_0000,
        min: Sequence::from_vec(min),
    };
    Head {
        usage: 3,
        dtype: 9,
        comps: 2,
        normalized: 0,
        id: 4,
        quant: Some(quant),
        octa: None,
    }
}

/// Asserts that a quantisation has so many bits and least values of two components.
fn is_quantised_so(rt: &impl Abort, quant: &Quant) {
    is_number(rt, quant.bits as u64, 11);
    is_number(rt, quant.min.len() as u64, 2);
}

#[test]
fn copies_a_quantised_head(rt: HostRuntime) {
    let head = quantised(&rt, rt.alloc());
    let copy = head.copy(rt.alloc()).expect(&rt, "room");
    is_number(&rt, copy.id as u64, 4);
    match &copy.quant {
        Some(quant) => is_quantised_so(&rt, quant),
        None => assert!(rt; false),
    }
}
