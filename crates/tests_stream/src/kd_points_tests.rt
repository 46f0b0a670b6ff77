//! Files from another program that follows the same rules, and damaged ones, with ample memory.

ghost use Rattle.std.specs.Prelude.{◌≡◌, ◌%◌, ◌<◌, length};

use attr_heads::Head;
use drc_base::{Fault, Kind, Refusal};
use kd_points::{kd_bits, kd_decode, kd_encode};
use mesh_model::{Cloud, CornerMesh, Geometry, Renumber, matches};
use std::alloc::{AllocError, Global};
use std::process::Abort;
use std::test::Fail;

/// The points 5 5 5, 5 5 5 and 5 5 6 of an int32 position.
const FIVES: [u8; 35] = [
    75, 68, 80, 84, 83, 1, 1, 0, 5, 3, 0, 0, 3, 5, 0, 0, 0, 0, 5, 0, 0, 0, 0, 5, 0, 0, 0, 1, 128,
    2, 0, 113, 1, 1, 0,
];

/// The points -2^31 0, -2^31 0, 0 1 and 2^31 - 1 1 of an int32 attribute.
const WIDE: [u8; 48] = [
    75, 68, 80, 84, 83, 1, 1, 0, 5, 2, 0, 0, 4, 0, 0, 0, 128, 32, 0, 0, 0, 0, 1, 130, 11, 4, 249,
    138, 139, 139, 139, 139, 139, 217, 234, 129, 124, 10, 92, 114, 29, 155, 203, 136, 195, 150,
    217, 131,
];

/// Five points of two uint8 components, which both have two bits.
const TIES: [u8; 34] = [
    75, 68, 80, 84, 83, 1, 1, 0, 2, 2, 0, 0, 5, 0, 0, 0, 0, 2, 0, 0, 0, 0, 2, 138, 4, 56, 202, 236,
    129, 85, 3, 66, 91, 128,
];

/// A quantised position and a normalized colour: three points.
const QUANTISED: [u8; 65] = [
    75, 68, 80, 84, 83, 1, 2, 0, 9, 2, 0, 1, 11, 0, 0, 128, 63, 0, 0, 0, 0, 0, 0, 128, 191, 2, 2,
    1, 1, 2, 3, 0, 0, 0, 0, 10, 5, 0, 0, 0, 11, 9, 0, 0, 0, 8, 128, 3, 0, 243, 128, 169, 12, 172,
    137, 22, 68, 14, 247, 172, 226, 180, 194, 230, 128,
];

/// A cloud of one attribute.
fn cloud(alloc: Global, dtype: u8, comps: u8, points: &[i32]) -> Result<Geometry, Refusal>
    requires { length points.now % comps ≡ 0 }
{
    let heads = vec![in alloc;
        Head {
            usage: 0,
            dtype,
            comps,
            normalized: 0,
            id: 0,
            quant: None,
            octa: None
        },
    ]?;
    let cloud = Cloud::new(heads, points.to_vec(alloc)?)?;
    Ok(Geometry::Cloud(cloud))
}

/// The fault of a file, if any.
fn fault_of(alloc: Global, bytes: &[u8]) -> Option<Refusal> {
    kd_decode(alloc, bytes).err()
}

/// The points of a geometry are these integers.
fn has_cells(g: &Geometry, cells: &[i32]) -> bool {
    match g {
        Geometry::Cloud(cloud) => cloud.cells() == cells,
        Geometry::Mesh(_) => false,
    }
}

/// Whether these bytes are read as a cloud by these rows.
fn is_read_as(alloc: Global, g: &Geometry, bytes: &[u8], rows: &Renumber) -> Result<bool, Refusal> {
    let read = kd_decode(alloc, bytes)?;
    Ok(matches(alloc, g, &read, rows)?)
}

/// Whether these bytes, with three behind them, are read as a cloud by these rows.
fn is_read_of_longer(
    alloc: Global,
    g: &Geometry,
    bytes: &[u8],
    rows: &Renumber,
) -> Result<bool, Refusal> {
    let mut longer = Vec::from_slice(alloc, bytes)?;
    longer.extend_from_slice(&[0, 255, 128])?;
    is_read_as(alloc, g, longer.as_slice(), rows)
}

/// What is written of a cloud is these bytes, by these rows.
fn is_due(rt: &impl Abort, written: (&[u8], &[(u32, u8)]), bytes: &[u8], order: &[(u32, u8)]) {
    assert_eq!(rt; written.0, bytes);
    assert_eq!(rt; written.1, order);
}

/// A cloud is written as these bytes, by these rows, and the bytes are read as the cloud.
fn is_written(
    rt: &(impl Abort + AllocGlobal),
    g: &Geometry,
    bytes: &[u8],
    order: &[(u32, u8)],
) -> Result<(), Refusal> {
    let (written, rows) = kd_encode(rt.alloc(), g)?;
    is_due(rt, (written.as_slice(), rows.rows.as_slice()), bytes, order);
    let is_read = is_read_of_longer(rt.alloc(), g, written.as_slice(), &rows)?;
    assert!(rt; is_read);
    Ok(())
}

/// A cloud is written as these bytes, by these rows and of so many bits, and the bytes are read as the cloud.
fn round(
    rt: &(impl Abort + AllocGlobal),
    g: &Geometry,
    bytes: &[u8],
    order: &[(u32, u8)],
    bits: (u64, u64),
) -> Result<(), Fail> {
    is_written(rt, g, bytes, order)?;
    assert!(rt; kd_bits(rt.alloc(), g)? == bits);
    Ok(())
}

#[test]
fn equal_points_keep_their_order(rt: HostRuntime) -> Result<(), Fail> {
    let fives = cloud(rt.alloc(), 5, 3, &[5, 5, 5, 5, 5, 5, 5, 5, 6])?;
    round(&rt, &fives, &FIVES, &[(0, 0), (1, 0), (2, 0)], (2, 0))
}

#[test]
fn the_same_points_in_another_order_have_the_same_bytes(rt: HostRuntime) -> Result<(), Fail> {
    let turned = cloud(rt.alloc(), 5, 3, &[5, 5, 6, 5, 5, 5, 5, 5, 5])?;
    round(&rt, &turned, &FIVES, &[(1, 0), (2, 0), (0, 0)], (2, 0))
}

/// The least and the greatest integer in a cloud of two components.
const FARTHEST: [i32; 8] = [-0x8000_0000, 0, 0x7fff_ffff, 1, 0, 1, -0x8000_0000, 0];

#[test]
fn the_least_and_the_greatest_integer_are_kept(rt: HostRuntime) -> Result<(), Fail> {
    let wide = cloud(rt.alloc(), 5, 2, &FARTHEST)?;
    let order = [(0, 0), (3, 0), (2, 0), (1, 0)];
    round(&rt, &wide, &WIDE, &order, (69, 62))
}

#[test]
fn components_of_as_many_bits_are_kept(rt: HostRuntime) -> Result<(), Fail> {
    let ties = cloud(rt.alloc(), 2, 2, &[3, 0, 0, 3, 1, 2, 2, 1, 3, 0])?;
    let order = [(1, 0), (2, 0), (3, 0), (0, 0), (4, 0)];
    round(&rt, &ties, &TIES, &order, (13, 3))
}

/// Four times the point -7 of an int16 attribute.
const SEVENS: [u8; 24] = [
    75, 68, 80, 84, 83, 1, 1, 0, 3, 1, 0, 0, 4, 249, 255, 255, 255, 0, 1, 1, 0, 1, 1, 0,
];

#[test]
fn points_that_are_all_equal_take_no_bits(rt: HostRuntime) -> Result<(), Fail> {
    let equal = cloud(rt.alloc(), 3, 1, &[-7, -7, -7, -7])?;
    let order = [(0, 0), (1, 0), (2, 0), (3, 0)];
    round(&rt, &equal, &SEVENS, &order, (0, 0))
}

/// The point -128 127 of an int8 attribute.
const ONE: [u8; 29] = [
    75, 68, 80, 84, 83, 1, 1, 0, 1, 2, 0, 0, 1, 128, 255, 255, 255, 0, 127, 0, 0, 0, 0, 1, 1, 0, 1,
    1, 0,
];

#[test]
fn one_point_takes_no_bits(rt: HostRuntime) -> Result<(), Fail> {
    let one = cloud(rt.alloc(), 1, 2, &[-128, 127])?;
    round(&rt, &one, &ONE, &[(0, 0)], (0, 0))
}

/// The points 0, 0, 0, 1 and 1 of a uint8 attribute.
const NARROW: [u8; 26] = [
    75, 68, 80, 84, 83, 1, 1, 0, 2, 1, 0, 0, 5, 0, 0, 0, 0, 1, 85, 3, 187, 90, 128, 1, 1, 0,
];

#[test]
fn points_of_one_bit_are_kept(rt: HostRuntime) -> Result<(), Fail> {
    let narrow = cloud(rt.alloc(), 2, 1, &[1, 0, 1, 0, 0])?;
    let order = [(1, 0), (3, 0), (4, 0), (0, 0), (2, 0)];
    round(&rt, &narrow, &NARROW, &order, (3, 0))
}

/// Whether a file's points are these integers.
fn is_of_cells(alloc: Global, bytes: &[u8], cells: &[i32]) -> Result<bool, Refusal> {
    let g = kd_decode(alloc, bytes)?;
    Ok(has_cells(&g, cells))
}

/// What is written of what a file means.
fn written_again(alloc: Global, bytes: &[u8]) -> Result<Vec<u8>, Refusal> {
    let g = kd_decode(alloc, bytes)?;
    let (written, _rows) = kd_encode(alloc, &g)?;
    Ok(written)
}

/// The numbers of bits of what a file means.
fn bits_again(alloc: Global, bytes: &[u8]) -> Result<(u64, u64), Refusal> {
    let g = kd_decode(alloc, bytes)?;
    kd_bits(alloc, &g)
}

/// What a file means is written as the file, and has so many bits.
fn is_written_again(
    rt: &(impl Abort + AllocGlobal),
    bytes: &[u8],
    bits: (u64, u64),
) -> Result<(), Refusal> {
    assert!(rt; bits_again(rt.alloc(), bytes)? == bits);
    let written = written_again(rt.alloc(), bytes)?;
    assert_eq!(rt; written.as_slice(), bytes);
    Ok(())
}

#[test]
fn files_are_read_and_written(rt: HostRuntime) -> Result<(), Fail> {
    let cells = [77, 5, 9, 1023, 5, 200, 0, 2047, 9];
    assert!(rt; is_of_cells(rt.alloc(), &QUANTISED, &cells)?);
    is_written_again(&rt, &QUANTISED, (4, 82))?;
    Ok(())
}

/// The end of a file of two points, all 0 and all 1, of 128 components.
const ENDS_OF_MANY: [u8; 40] = [
    128, 2, 128, 112, 128, 34, 0, 0, 0, 0, 0, 0, 0, 0, 0, 0, 0, 0, 0, 0, 0, 0, 128, 255, 255, 255,
    255, 255, 255, 255, 255, 255, 255, 255, 255, 255, 255, 255, 47, 132,
];

/// Two points of 16 attributes of eight uint8 components: all 0 and all 1.
fn many_components(alloc: Global) -> Result<Vec<u8>, Refusal> {
    let mut bytes = Vec::from_slice(alloc, &[75, 68, 80, 84, 83, 1, 16])?;
    for _attribute in 0..16u8 {
        bytes.extend_from_slice(&[0, 2, 8, 0, 0])?;
    }
    bytes.push(2)?;
    for _component in 0..128u8 {
        bytes.extend_from_slice(&[0, 0, 0, 0, 1])?;
    }
    bytes.extend_from_slice(&ENDS_OF_MANY)?;
    Ok(bytes)
}

/// The integers of the two points.
static BOTH_POINTS: [[i32; 128]; 2] = [[0; 128], [1; 128]];

/// The integers of the two points, one point after the other.
fn both_points(alloc: Global) -> Result<Vec<i32>, AllocError> {
    let mut cells = Vec::new(alloc);
    for row in BOTH_POINTS.iter() {
        cells.extend_from_slice(row)?;
    }
    Ok(cells)
}

#[test]
fn all_components_are_read(rt: HostRuntime) -> Result<(), Fail> {
    let bytes = many_components(rt.alloc())?;
    let cells = both_points(rt.alloc())?;
    assert!(rt; is_of_cells(rt.alloc(), bytes.as_slice(), cells.as_slice())?);
    Ok(())
}

#[test]
fn all_components_are_written(rt: HostRuntime) -> Result<(), Fail> {
    let bytes = many_components(rt.alloc())?;
    is_written_again(&rt, bytes.as_slice(), (2, 254))?;
    Ok(())
}

/// The fault of a file is this one.
fn is_refused(rt: &(impl Abort + AllocGlobal), bytes: &[u8], kind: Kind, at: u64) {
    let due = Refusal::Fault(Fault::new(kind, at));
    assert!(rt; fault_of(rt.alloc(), bytes) == Some(due), "{bytes:?}");
}

/// Where the bytes are wanting in the fives that are cut, by the number of bytes that are left.
static PLACES_OF_CUTS: [u64; 35] = [
    0, 0, 0, 0, 0, 5, 6, 7, 8, 9, 10, 11, 12, 13, 13, 13, 13, 17, 18, 18, 18, 18, 22, 23, 23, 23,
    23, 27, 28, 29, 30, 30, 32, 33, 34,
];

#[test]
fn each_cut_is_refused(rt: HostRuntime) {
    for (len, at) in PLACES_OF_CUTS.iter().enumerate() {
        is_refused(&rt, &FIVES[..len], Kind::Short, *at);
    }
}

/// Replaces a byte of the fives by another.
fn damaged(place: usize, byte: u8) -> [u8; 35]
    requires { place < 35 }
{
    let mut bytes = FIVES;
    bytes[place] = byte;
    bytes
}

/// The place of a byte of the fives and another byte there, and the kind and place of the fault.
static DAMAGES: [(usize, u8, Kind, u64); 13] = [
    (4, 84, Kind::KdMagic, 0),
    (5, 2, Kind::KdVersion, 5),
    (6, 0, Kind::NoAttribute, 6),
    (6, 17, Kind::AttrLimit, 6),
    (7, 5, Kind::AttrType, 7),
    (8, 7, Kind::DataType, 8),
    (9, 0, Kind::Components, 9),
    (9, 9, Kind::Components, 9),
    (12, 0, Kind::Empty, 12),
    (17, 33, Kind::KdBits, 17),
    (28, 0, Kind::BadProb, 28),
    (31, 192, Kind::BadStart, 30),
    (32, 0, Kind::BadProb, 32),
];

#[test]
fn damaged_files_are_refused(rt: HostRuntime) {
    for (place, byte, kind, at) in DAMAGES.iter() {
        let bytes = if *place < 35 {
            damaged(*place, *byte)
        } else {
            FIVES
        };
        is_refused(&rt, &bytes, *kind, *at);
    }
}

/// Files with a fault, and its kind and place.
static FAULTS: [(&[u8], Kind, u64); 9] = [
    // Three of two points lie in the lower box.
    (
        &[
            75, 68, 80, 84, 83, 1, 1, 0, 5, 3, 0, 0, 2, 5, 0, 0, 0, 0, 5, 0, 0, 0, 0, 5, 0, 0, 0,
            1, 1, 1, 32, 1, 1, 0,
        ],
        Kind::KdSplit,
        28,
    ),
    // The block of rest bits comes before the tree.
    (
        &[
            75, 68, 80, 84, 83, 1, 1, 0, 5, 3, 0, 0, 2, 5, 0, 0, 0, 0, 5, 0, 0, 0, 0, 5, 0, 0, 0,
            1, 1, 1, 32, 0, 1, 0,
        ],
        Kind::BadProb,
        31,
    ),
    // 255 + 1 in the second component of a uint8 attribute, 1 above 255 in the third too.
    (
        &[
            75, 68, 80, 84, 83, 1, 1, 0, 2, 3, 0, 0, 1, 5, 0, 0, 0, 0, 0, 1, 0, 0, 0, 0, 1, 0, 0,
            0, 1, 1, 0, 1, 1, 0,
        ],
        Kind::ValueRange,
        18,
    ),
    // A quantisation of 31 bits, and one of 30 bits without its range.
    (
        &[75, 68, 80, 84, 83, 1, 1, 0, 9, 3, 0, 0, 31, 0],
        Kind::QuantBits,
        12,
    ),
    (
        &[75, 68, 80, 84, 83, 1, 1, 0, 9, 3, 0, 0, 30, 0],
        Kind::Short,
        13,
    ),
    // 2^20 + 1 points; 2^20 points of five components; 2^20 points of four, without their extents; no end
    // of the number of points.
    (
        &[75, 68, 80, 84, 83, 1, 1, 0, 5, 4, 0, 0, 129, 128, 64],
        Kind::PointLimit,
        12,
    ),
    (
        &[75, 68, 80, 84, 83, 1, 1, 0, 5, 5, 0, 0, 128, 128, 64],
        Kind::KdLimit,
        12,
    ),
    (
        &[75, 68, 80, 84, 83, 1, 1, 0, 5, 4, 0, 0, 128, 128, 64],
        Kind::Short,
        15,
    ),
    (
        &[
            75, 68, 80, 84, 83, 1, 1, 0, 5, 4, 0, 0, 128, 128, 128, 128, 128,
        ],
        Kind::Long,
        12,
    ),
];

#[test]
fn faults_behind_each_other(rt: HostRuntime) {
    for (bytes, kind, at) in FAULTS.iter() {
        is_refused(&rt, bytes, *kind, *at);
    }
}

/// A mesh of one face.
fn mesh_of_one_face(alloc: Global) -> Result<Geometry, Refusal> {
    let heads = vec![in alloc;
        Head {
            usage: 0,
            dtype: 5,
            comps: 1,
            normalized: 0,
            id: 0,
            quant: None,
            octa: None
        },
    ]?;
    let mesh = CornerMesh::new(heads, vec![in alloc; 1, 2, 3]?, vec![in alloc; [0, 1, 2]]?)?;
    Ok(Geometry::Mesh(mesh))
}

#[test]
fn meshes_are_not_written(rt: HostRuntime) -> Result<(), Fail> {
    let mesh = mesh_of_one_face(rt.alloc())?;
    let refused = Some(Refusal::Fault(Fault::new(Kind::KdMesh, 0)));
    assert!(rt; kd_encode(rt.alloc(), &mesh).err() == refused);
    assert!(rt; kd_bits(rt.alloc(), &mesh).err() == refused);
    Ok(())
}

#[test]
fn clouds_without_points_are_not_written(rt: HostRuntime) -> Result<(), Fail> {
    let none = cloud(rt.alloc(), 5, 1, &[])?;
    let refused = Some(Refusal::Fault(Fault::new(Kind::Empty, 0)));
    assert!(rt; kd_encode(rt.alloc(), &none).err() == refused);
    Ok(())
}

/// A cloud of so many points of one component, all equal.
fn sevens(alloc: Global, count: usize) -> Result<Geometry, Refusal> {
    cloud(alloc, 2, 1, Vec::from_elem(alloc, 7, count)?.as_slice())
}

/// How many rows a cloud is written with, and whether what is written is read as the cloud.
fn rows_written(alloc: Global, g: &Geometry) -> Result<(usize, bool), Refusal> {
    let (bytes, rows) = kd_encode(alloc, g)?;
    let is_read = is_read_as(alloc, g, bytes.as_slice(), &rows)?;
    Ok((rows.rows.len(), is_read))
}

#[test]
fn as_many_points_as_may_be_are_written_and_read(rt: HostRuntime) -> Result<(), Fail> {
    let most = sevens(rt.alloc(), 1 << 20)?;
    let (rows, is_read) = rows_written(rt.alloc(), &most)?;
    assert_eq!(rt; rows, 1 << 20);
    assert!(rt; is_read);
    Ok(())
}

#[test]
fn more_points_are_not_written(rt: HostRuntime) -> Result<(), Fail> {
    let more = sevens(rt.alloc(), (1 << 20) + 1)?;
    let refused = Some(Refusal::Fault(Fault::new(Kind::PointLimit, (1 << 20) + 1)));
    assert!(rt; kd_encode(rt.alloc(), &more).err() == refused);
    Ok(())
}

#[test]
fn more_integers_have_no_bits(rt: HostRuntime) -> Result<(), Fail> {
    let alloc = rt.alloc();
    let wide = cloud(alloc, 2, 5, Vec::from_elem(alloc, 7, 4194305)?.as_slice())?;
    let refused = Some(Refusal::Fault(Fault::new(Kind::KdLimit, 4194305)));
    assert!(rt; kd_bits(alloc, &wide).err() == refused);
    Ok(())
}
