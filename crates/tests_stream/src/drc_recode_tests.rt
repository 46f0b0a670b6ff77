//! What no contract can say: that the calls succeed, and that the definitions are the ones meant, on rows and
//! streams worked by hand.

ghost use Rattle.std.specs.Prelude.{◌≡◌, IfOk};

use crate::profile_three::{FOLDED, FOLDED_POINTS, NORMALS, TEXTURED, TWO_FACES};
use drc_base::{Fault, Kind, PROFILE_THREE, PROFILE_TWO, Profile, Refusal, Sequence};
use drc_container::{Choice, Method, decode};
use drc_recode::{compose, decode_packed, invert, recode, restore};
use mesh_model::{Geometry, MapRead, Renumber};
use std::alloc::{AllocError, Global};
use std::process::Abort;
use std::test::Fail;
use worked_surfaces::TETRAHEDRON_ROWS;
use worked_surfaces::streams::{CLOUD, FACE, NO_POINTS, TETRAHEDRON, TRIANGLE};

/// Edgebreaker with values as they are, where the geometry is a mesh.
const PLAIN: Choice = Choice {
    method: None,
    index: None,
    predict: None,
    walk: None,
    plain_values: true,
};

/// Edgebreaker, which a cloud doesn't have, with values as they are.
const BY_EDGEBREAKER: Choice = Choice {
    method: Some(Method::Eb),
    ..PLAIN
};

/// A renumbering of these rows.
fn renumber(alloc: Global, rows: &[(u32, u8)]) -> Result<Renumber, AllocError>
    ensures { IfOk result (λ c. c.rows ≡ rows.now) }
{
    let rows = rows.to_vec(alloc)?;
    Ok(Renumber {
        rows: Sequence::from_vec(rows),
    })
}

/// What was read of a map of these rows.
fn map(alloc: Global, cloud: bool, rows: &[(u32, u8)]) -> Result<MapRead, AllocError> {
    let rows = renumber(alloc, rows)?;
    Ok(MapRead {
        cloud,
        rows,
        end: 0,
    })
}

/// The fault of a kind at a place.
fn fault(kind: Kind, at: u64) -> Option<Refusal> {
    Some(Refusal::Fault(Fault { kind, at }))
}

/// This is the fault of a kind at a place.
fn is_fault(rt: &impl Abort, given: Option<Refusal>, kind: Kind, at: u64) {
    assert_eq!(rt; given, fault(kind, at));
}

/// A few rows turned back.
fn back_of(rt: &impl Abort, alloc: Global, rows: &[(u32, u8)]) -> Result<Renumber, Refusal> {
    assert!(rt; rows.len() < 10);
    let c = renumber(alloc, rows)?;
    invert(alloc, &c)
}

#[test]
fn one_renumbering_after_another(rt: HostRuntime) -> Result<(), Fail> {
    let alloc = rt.alloc();
    let a = renumber(alloc, &[(0, 1), (1, 2)])?;
    let b = renumber(alloc, &[(1, 2), (0, 0)])?;
    let both = compose(alloc, &a, &b)?;
    assert_eq!(rt; both.rows.as_slice(), [(1, 1), (0, 1)].as_slice());
    Ok(())
}

#[test]
fn a_renumbering_turned_back(rt: HostRuntime) -> Result<(), Fail> {
    let back = back_of(&rt, rt.alloc(), &[(2, 1), (0, 0), (1, 2)])?;
    assert_eq!(rt; back.rows.as_slice(), [(1, 0), (2, 1), (0, 2)].as_slice());
    Ok(())
}

#[test]
fn no_rows_turned_back(rt: HostRuntime) -> Result<(), Fail> {
    assert!(rt; back_of(&rt, rt.alloc(), &[])?.rows.is_empty());
    Ok(())
}

/// Rows that have no way back, and the first row that is wrong.
static WITHOUT_A_WAY_BACK: [(&[(u32, u8)], u64); 4] = [
    (&[(0, 0), (2, 0)], 1),
    (&[(0, 1), (0, 2)], 1),
    (&[(1, 2), (0, 3)], 1),
    (&[(1, 3), (1, 0)], 0),
];

#[test]
fn rows_that_have_no_way_back(rt: HostRuntime) {
    for (rows, at) in WITHOUT_A_WAY_BACK.iter() {
        let refused = back_of(&rt, rt.alloc(), rows).err();
        is_fault(&rt, refused, Kind::BadMap, *at);
    }
}

/// What was written is these bytes, by these rows.
fn is_due(rt: &impl Abort, bytes: (&[u8], &[u8]), rows: (&[(u32, u8)], &[(u32, u8)])) {
    assert_eq!(rt; bytes.0, bytes.1);
    assert_eq!(rt; rows.0, rows.1);
}

#[test]
fn a_stream_written_in_another_way(rt: HostRuntime) -> Result<(), Fail> {
    let (bytes, rows) = recode(rt.alloc(), &TRIANGLE, &PLAIN, PROFILE_TWO)?;
    is_due(
        &rt,
        (bytes.as_slice(), &FACE),
        (rows.rows.as_slice(), &[(0, 0)]),
    );
    Ok(())
}

/// Recoding a stream as chosen is refused for this fault.
fn is_not_recoded(
    rt: &(impl Abort + AllocGlobal),
    bytes: &[u8],
    choice: &Choice,
    kind: Kind,
    at: u64,
) {
    let refused = recode(rt.alloc(), bytes, choice, PROFILE_TWO).err();
    is_fault(rt, refused, kind, at);
}

#[test]
fn streams_that_are_not_written_in_another_way(rt: HostRuntime) {
    is_not_recoded(&rt, &CLOUD, &BY_EDGEBREAKER, Kind::Choice, 0);
    is_not_recoded(&rt, &NO_POINTS, &PLAIN, Kind::Empty, 0);
    is_not_recoded(&rt, &CLOUD[..40], &BY_EDGEBREAKER, Kind::Short, 40);
}

/// Whether a geometry is a mesh of these integers and faces.
fn is_mesh(geometry: &Geometry, cells: &[i32], faces: &[[u32; 3]]) -> bool {
    match geometry {
        Geometry::Mesh(m) => m.cells() == cells && m.faces() == faces,
        Geometry::Cloud(_) => false,
    }
}

/// Whether a geometry is a cloud of these integers.
fn is_cloud(geometry: &Geometry, cells: &[i32]) -> bool {
    match geometry {
        Geometry::Cloud(c) => c.cells() == cells,
        Geometry::Mesh(_) => false,
    }
}

/// The integers of the tetrahedron's points in the order of its stream.
const SOLID_POINTS: [i32; 12] = [0, 0, 0, 0, 0, 1, 0, 1, 0, 1, 0, 0];

/// Its faces in that order.
const SOLID_FACES: [[u32; 3]; 4] = [[0, 1, 2], [2, 1, 3], [1, 0, 3], [2, 3, 0]];

/// Its faces in their first order.
const RESTORED_FACES: [[u32; 3]; 4] = [[0, 2, 3], [0, 3, 1], [3, 2, 1], [0, 1, 2]];

#[test]
fn a_mesh_read_for_encoding(rt: HostRuntime) -> Result<(), Fail> {
    let mesh = decode_packed(rt.alloc(), &TETRAHEDRON, PROFILE_TWO)?;
    assert!(rt; is_mesh(&mesh, &SOLID_POINTS, &SOLID_FACES));
    Ok(())
}

#[test]
fn a_cloud_read_for_encoding(rt: HostRuntime) -> Result<(), Fail> {
    let cloud = decode_packed(rt.alloc(), &CLOUD, PROFILE_TWO)?;
    assert!(rt; is_cloud(&cloud, &[5, 5, 5, 5, 5, 5, 5, 5, 6]));
    Ok(())
}

#[test]
fn a_cut_stream_is_not_read_for_encoding(rt: HostRuntime) {
    let refused = decode_packed(rt.alloc(), &CLOUD[..40], PROFILE_TWO).err();
    is_fault(&rt, refused, Kind::Short, 40);
}

/// What a stream means in the order before these rows, read back.
fn restored(
    alloc: Global,
    cloud: bool,
    rows: &[(u32, u8)],
    stream: &[u8],
) -> Result<Geometry, Refusal> {
    let map = map(alloc, cloud, rows)?;
    let bytes = restore(alloc, &map, stream, PROFILE_TWO)?;
    decode(alloc, bytes.as_slice(), PROFILE_TWO)
}

#[test]
fn a_mesh_in_its_first_order(rt: HostRuntime) -> Result<(), Fail> {
    let read = restored(rt.alloc(), false, &TETRAHEDRON_ROWS, &TETRAHEDRON)?;
    assert!(rt; is_mesh(&read, &SOLID_POINTS, &RESTORED_FACES));
    Ok(())
}

#[test]
fn a_cloud_in_its_first_order(rt: HostRuntime) -> Result<(), Fail> {
    let read = restored(rt.alloc(), true, &[(2, 0), (0, 0), (1, 0)], &CLOUD)?;
    assert!(rt; is_cloud(&read, &[5, 5, 5, 5, 5, 6, 5, 5, 5]));
    Ok(())
}

/// Putting a stream back in the order before these rows is refused for this fault.
fn is_not_put_back(
    rt: &(impl Abort + AllocGlobal),
    cloud: bool,
    rows: &[(u32, u8)],
    stream: &[u8],
    due: (Kind, u64),
) -> Result<(), Fail> {
    let map = map(rt.alloc(), cloud, rows)?;
    let refused = restore(rt.alloc(), &map, stream, PROFILE_TWO).err();
    is_fault(rt, refused, due.0, due.1);
    Ok(())
}

/// Whether the rows are of a cloud, the rows and a stream, and the kind and place of the fault.
static NOT_PUT_BACK: [(bool, &[(u32, u8)], &[u8], (Kind, u64)); 8] = [
    (true, &[(0, 0)], &TETRAHEDRON, (Kind::MapKind, 0)),
    (false, &[(0, 0), (1, 0), (2, 0)], &CLOUD, (Kind::MapKind, 0)),
    (false, &[(0, 0)], &TETRAHEDRON, (Kind::MapCount, 1)),
    (true, &[(0, 3), (0, 3)], &CLOUD, (Kind::MapCount, 2)),
    (
        false,
        &[(3, 0), (2, 1), (3, 2), (0, 1)],
        &TETRAHEDRON,
        (Kind::BadMap, 2),
    ),
    (
        false,
        &[(3, 0), (2, 1), (1, 3), (4, 1)],
        &TETRAHEDRON,
        (Kind::BadMap, 2),
    ),
    (true, &[(2, 0), (0, 1), (1, 0)], &CLOUD, (Kind::BadMap, 1)),
    (true, &[], &NO_POINTS, (Kind::Empty, 0)),
];

#[test]
fn streams_that_are_not_put_back(rt: HostRuntime) -> Result<(), Fail> {
    for (cloud, rows, stream, due) in NOT_PUT_BACK.iter() {
        is_not_put_back(&rt, *cloud, rows, stream, *due)?;
    }
    Ok(())
}

#[test]
fn a_cut_stream_is_not_put_back(rt: HostRuntime) -> Result<(), Fail> {
    is_not_put_back(&rt, true, &[(0, 3)], &CLOUD[..40], (Kind::Short, 40))
}

#[test]
fn texture_coordinates_written_by_other_predictions(rt: HostRuntime) -> Result<(), Fail> {
    let alloc = rt.alloc();
    let (bytes, rows) = recode(alloc, &TEXTURED, &PLAIN, PROFILE_THREE)?;
    assert_eq!(rt; rows.rows.as_slice(), [(1, 1), (0, 2)].as_slice());
    let _read = decode(alloc, bytes.as_slice(), PROFILE_TWO)?;
    Ok(())
}

#[test]
fn a_mesh_with_a_square_read_for_encoding(rt: HostRuntime) -> Result<(), Fail> {
    let mesh = decode_packed(rt.alloc(), &FOLDED, PROFILE_THREE)?;
    assert!(rt; is_mesh(&mesh, &FOLDED_POINTS, &TWO_FACES));
    Ok(())
}

/// A stream, a choice, a profile, and the kind and place of the fault.
static NOT_RECODED: [(&[u8], Choice, Profile, Kind, u64); 3] = [
    (&NORMALS, BY_EDGEBREAKER, PROFILE_THREE, Kind::Choice, 0),
    (&NORMALS, PLAIN, PROFILE_TWO, Kind::Octahedral, 22),
    (&TEXTURED, PLAIN, PROFILE_TWO, Kind::Prediction, 71),
];

#[test]
fn streams_of_profile_three_that_are_not_written_in_another_way(rt: HostRuntime) {
    for (bytes, choice, profile, kind, at) in NOT_RECODED.iter() {
        let refused = recode(rt.alloc(), bytes, choice, *profile).err();
        is_fault(&rt, refused, *kind, *at);
    }
}

/// Rows, and the kind and place of the fault of putting the normals back by them.
static NORMALS_NOT_PUT_BACK: [(&[(u32, u8)], Kind, u64); 2] = [
    (&[(0, 0)], Kind::MapCount, 1),
    (&[(0, 0), (1, 1), (2, 0)], Kind::BadMap, 1),
];

#[test]
fn maps_that_do_not_fit_octahedral_attributes(rt: HostRuntime) -> Result<(), Fail> {
    for (rows, kind, at) in NORMALS_NOT_PUT_BACK.iter() {
        let map = map(rt.alloc(), true, rows)?;
        let refused = restore(rt.alloc(), &map, &NORMALS, PROFILE_THREE).err();
        is_fault(&rt, refused, *kind, *at);
    }
    Ok(())
}

/// The points of the cloud of normals in the order before these rows.
const NORMALS_PUT_BACK: [i32; 6] = [14, 7, 4, 0, 7, 7];

#[test]
fn octahedral_attributes_are_put_back(rt: HostRuntime) -> Result<(), Fail> {
    let alloc = rt.alloc();
    let map = map(alloc, true, &[(2, 0), (0, 0), (1, 0)])?;
    let bytes = restore(alloc, &map, &NORMALS, PROFILE_THREE)?;
    let cloud = decode(alloc, bytes.as_slice(), PROFILE_THREE)?;
    assert!(rt; is_cloud(&cloud, &NORMALS_PUT_BACK));
    Ok(())
}
