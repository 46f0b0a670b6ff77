//! Whether two geometries are the same by a renumbering.

ghost use Rattle.std.specs.Prelude.{◌≡◌, ◌+◌, ◌<◌, ◌↔◌, ℕ, false, length, IsTrue, IfOk, All};
ghost use Rattle.std.specs.List.{list_all};
ghost use Rattle.mesh_model.specs.Parts.{corner};
ghost use Rattle.mesh_model.specs.Same.{NamesEachOnce, Same, SameFace, SameMesh, SameCloudPoint, SameCloud, named, turn};

use crate::clouds::Cloud;
use crate::geometries::Geometry;
use crate::meshes::CornerMesh;
use crate::renumberings::Renumber;
use attr_heads::{Head, Quant};
use drc_base::Memory;
use std::alloc::Global;

/// Whether two quantisations are equal.
fn same_quant(a: &Quant, b: &Quant) -> bool
    ensures { IsTrue result ↔ (a.now ≡ b.now) }
{
    a.bits == b.bits && a.range == b.range && a.min.as_slice() == b.min.as_slice()
}

/// Whether two heads have equal quantisations.
fn same_quants(a: &Head, b: &Head) -> bool
    ensures { IsTrue result ↔ (a.now.quant ≡ b.now.quant) }
{
    match (&a.quant, &b.quant) {
        (None, None) => true,
        (Some(x), Some(y)) => same_quant(x, y),
        _ => false,
    }
}

/// Whether two heads are equal.
fn same_head(a: &Head, b: &Head) -> bool
    ensures { IsTrue result ↔ (a.now ≡ b.now) }
{
    a.usage == b.usage
        && a.dtype == b.dtype
        && a.comps == b.comps
        && a.normalized == b.normalized
        && a.id == b.id
        && same_quants(a, b)
        && a.octa == b.octa
}

/// Whether two lists of heads are equal.
pub fn same_heads(a: &[Head], b: &[Head]) -> bool
    ensures { IsTrue result ↔ (a.now ≡ b.now) }
{
    if a.len() != b.len() {
        return false;
    }
    for (k, head) in a.iter().enumerate() {
        if !same_head(head, &b[k]) {
            return false;
        }
    }
    true
}

/// Whether two rows of integers are equal. Rows are short, and compared in place.
#[inline(always)]
pub fn same_row(a: &[i32], b: &[i32]) -> bool
    ensures { IsTrue result ↔ (a.now ≡ b.now) }
{
    if a.len() != b.len() {
        return false;
    }
    for j in 0..a.len() {
        if a[j] != b[j] {
            return false;
        }
    }
    true
}

/// Whether each mark is set.
fn all_true(marks: &[bool]) -> bool
    ensures { result ≡ list_all (λ mark. mark) marks.now }
{
    marks.iter().all(|mark| *mark)
}

/// Marks the numbers that rows name, none of which is marked at first: whether each mark's number, and no other, stands
/// in exactly one row.
fn mark_each(seen: &mut [bool], rows: &[(u32, u8)]) -> bool
    requires none { All (λ mark. mark ≡ false) seen.old }
    ensures { IsTrue result ↔ NamesEachOnce (length seen.old) rows.now }
{
    for row in rows {
        let named = row.0 as usize;
        if named >= seen.len() {
            return false;
        }
        if seen[named] {
            return false;
        }
        seen[named] = true;
    }
    all_true(seen)
}

/// Whether each number below `count`, and no other, stands in exactly one row.
fn names_each_once(alloc: Global, count: u32, rows: &[(u32, u8)]) -> Result<bool, Memory>
    ensures { IfOk result (λ yes. IsTrue yes ↔ NamesEachOnce count rows.now) }
{
    let mut seen = vec![in alloc; false; count as usize]?;
    Ok(mark_each(seen.as_mut_slice(), rows))
}

/// Whether corner `k` of face `i` of `n` is corner `k + turn` of face `named` of `m`.
fn same_corner(m: &CornerMesh, n: &CornerMesh, i: u32, named: u32, turn: u8, k: u8) -> bool
    requires face { i < length n.now.faces }
    requires named { named < length m.now.faces }
    requires places { (turn < 3) × (k < 3) }
    ensures { IsTrue result ↔ (corner n.now i k ≡ corner m.now named (k + turn)) }
{
    same_row(n.corner(i, k), m.corner(named, (k + turn) % 3))
}

/// Whether face `i` of `n` is face `named` of `m`, turned.
pub fn same_face(m: &CornerMesh, n: &CornerMesh, i: u32, named: u32, turn: u8) -> bool
    requires face { i < length n.now.faces }
    requires named { named < length m.now.faces }
    ensures { IsTrue result ↔ SameFace m.now n.now i named turn }
{
    turn < 3
        && same_corner(m, n, i, named, turn, 0)
        && same_corner(m, n, i, named, turn, 1)
        && same_corner(m, n, i, named, turn, 2)
}

/// Whether each face of `n` is the face of `m` that its row names, turned.
fn same_faces(m: &CornerMesh, n: &CornerMesh, rows: &[(u32, u8)]) -> bool
    requires each_row { length rows.now ≡ length n.now.faces }
    requires within { All (λ row. row.0 < length m.now.faces) rows.now }
    ensures { IsTrue result ↔ ((i : ℕ) → i < length n.now.faces →
        SameFace m.now n.now i (named rows.now i) (turn rows.now i)) }
{
    for i in 0..n.face_count() {
        let row = rows[i as usize];
        if !same_face(m, n, i, row.0, row.1) {
            return false;
        }
    }
    true
}

/// Whether `n` is `m` by a renumbering.
fn same_meshes(
    alloc: Global,
    m: &CornerMesh,
    n: &CornerMesh,
    rows: &[(u32, u8)],
) -> Result<bool, Memory>
    ensures { IfOk result (λ yes. IsTrue yes ↔ SameMesh m.now n.now rows.now) }
{
    if !same_heads(m.heads(), n.heads()) {
        return Ok(false);
    }
    if rows.len() != n.face_count() as usize {
        return Ok(false);
    }
    if !names_each_once(alloc, m.face_count(), rows)? {
        return Ok(false);
    }
    Ok(same_faces(m, n, rows))
}

/// Whether point `i` of `n` is point `named` of `m`, with no turn.
pub fn same_point(m: &Cloud, n: &Cloud, i: u32, named: u32, turn: u8) -> bool
    requires point { i < length n.now.points }
    requires named { named < length m.now.points }
    ensures { IsTrue result ↔ SameCloudPoint m.now n.now i named turn }
{
    turn == 0 && same_row(n.point(i), m.point(named))
}

/// Whether each point of `n` is the point of `m` that its row names.
fn same_points(m: &Cloud, n: &Cloud, rows: &[(u32, u8)]) -> bool
    requires each_row { length rows.now ≡ length n.now.points }
    requires within { All (λ row. row.0 < length m.now.points) rows.now }
    ensures { IsTrue result ↔ ((i : ℕ) → i < length n.now.points →
        SameCloudPoint m.now n.now i (named rows.now i) (turn rows.now i)) }
{
    for i in 0..n.point_count() {
        let row = rows[i as usize];
        if !same_point(m, n, i, row.0, row.1) {
            return false;
        }
    }
    true
}

/// Whether `n` is `m` by a renumbering.
fn same_clouds(alloc: Global, m: &Cloud, n: &Cloud, rows: &[(u32, u8)]) -> Result<bool, Memory>
    ensures { IfOk result (λ yes. IsTrue yes ↔ SameCloud m.now n.now rows.now) }
{
    if !same_heads(m.heads(), n.heads()) {
        return Ok(false);
    }
    if rows.len() != n.point_count() as usize {
        return Ok(false);
    }
    if !names_each_once(alloc, m.point_count(), rows)? {
        return Ok(false);
    }
    Ok(same_points(m, n, rows))
}

/// Whether `b` is `a` by the renumbering `c`: their heads are equal; `c` has one row for each face
/// (or point) of `b`, and names each face (or point) of `a` once; and corner k of face i of `b` has
/// the integers of corner k + turn of the face that row i names (of clouds, point i those of the
/// point that row i names, and each turn is 0). A mesh is no cloud. It says nothing of point
/// numbers, nor of points in no face.
pub fn matches(alloc: Global, a: &Geometry, b: &Geometry, c: &Renumber) -> Result<bool, Memory>
    ensures { IfOk result (λ yes. IsTrue yes ↔ Same a.now b.now c.now.rows) }
{
    match (a, b) {
        (Geometry::Mesh(m), Geometry::Mesh(n)) => same_meshes(alloc, m, n, c.rows.as_slice()),
        (Geometry::Cloud(m), Geometry::Cloud(n)) => same_clouds(alloc, m, n, c.rows.as_slice()),
        _ => Ok(false),
    }
}
