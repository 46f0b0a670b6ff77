//! The first row of a renumbering that is wrong.
//!
//! One pass goes over the rows with a mark for each face or point of the geometry that was given: a row
//! that names a marked number, or none, is wrong at once, and else the number is marked. So no row is
//! searched for, and each face is looked at once, where it stands.

ghost use Rattle.std.specs.Prelude.{◌≡◌, ◌+◌, ◌<◌, false, length, replicate, IfOk, IsTrue};
ghost use Rattle.mesh_model.specs.Same.{named, turn, SameFace, SameCloudPoint};
ghost use Rattle.drc_verify.specs.Firsts.{first_failing};
ghost use Rattle.drc_verify.specs.RowTests.{names_new, same_face, same_point, face_is_right, point_is_right, AreSeen};

use drc_base::Memory;
use mesh_model::{Cloud, CornerMesh};
use std::alloc::Global;

/// No number below `count` is marked.
fn none_marked(alloc: Global, count: u32) -> Result<Vec<bool>, Memory>
    ensures { IfOk result (λ seen. seen.items ≡ replicate count false) }
{
    Ok(vec![in alloc; false; count as usize]?)
}

/// Whether row `i` names one of the numbers that no row before it names, which is marked then.
#[tactic(auto, using(crate::proofs::Marking::marked_more))]
fn marks_new(seen: &mut Vec<bool>, rows: &[(u32, u8)], i: u32) -> bool
    requires row { i < length rows.now }
    requires marked { AreSeen rows.now i seen.old.items }
    ensures new { result ≡ names_new (length seen.old.items) rows.now i }
    ensures within { IsTrue result → named rows.now i < length seen.old.items }
    ensures len { length seen.new.items ≡ length seen.old.items }
    ensures marked { IsTrue result → AreSeen rows.now (i + 1) seen.new.items }
{
    let number = rows[i as usize].0 as usize;
    if number >= seen.len() || seen[number] {
        return false;
    }
    seen[number] = true;
    true
}

/// Whether face `i` of `n` is face `named` of `m`, turned.
fn faces_agree(m: &CornerMesh, n: &CornerMesh, i: u32, named: u32, turn: u8) -> bool
    requires face { i < length n.now.faces }
    requires named { named < length m.now.faces }
    ensures { result ≡ same_face m.now n.now i named turn }
{
    mesh_model::same_face(m, n, i, named, turn)
}

/// Whether point `i` of `n` is point `named` of `m`, with no turn.
fn points_agree(m: &Cloud, n: &Cloud, i: u32, named: u32, turn: u8) -> bool
    requires point { i < length n.now.points }
    requires named { named < length m.now.points }
    ensures { result ≡ same_point m.now n.now i named turn }
{
    mesh_model::same_point(m, n, i, named, turn)
}

/// Whether row `i` of a mesh is right; the face that it names is marked then.
fn is_right_face(
    m: &CornerMesh,
    n: &CornerMesh,
    rows: &[(u32, u8)],
    i: u32,
    seen: &mut Vec<bool>,
) -> bool
    requires row { i < length rows.now }
    requires face { i < length n.now.faces }
    requires marks { length seen.old.items ≡ length m.now.faces }
    requires marked { AreSeen rows.now i seen.old.items }
    ensures right { result ≡ face_is_right m.now n.now rows.now i }
    ensures marks { length seen.new.items ≡ length m.now.faces }
    ensures marked { IsTrue result → AreSeen rows.now (i + 1) seen.new.items }
{
    if !marks_new(seen, rows, i) {
        return false;
    }
    let (named, turn) = rows[i as usize];
    faces_agree(m, n, i, named, turn)
}

/// Whether row `i` of a cloud is right; the point that it names is marked then.
fn is_right_point(m: &Cloud, n: &Cloud, rows: &[(u32, u8)], i: u32, seen: &mut Vec<bool>) -> bool
    requires row { i < length rows.now }
    requires point { i < length n.now.points }
    requires marks { length seen.old.items ≡ length m.now.points }
    requires marked { AreSeen rows.now i seen.old.items }
    ensures right { result ≡ point_is_right m.now n.now rows.now i }
    ensures marks { length seen.new.items ≡ length m.now.points }
    ensures marked { IsTrue result → AreSeen rows.now (i + 1) seen.new.items }
{
    if !marks_new(seen, rows, i) {
        return false;
    }
    let (named, turn) = rows[i as usize];
    points_agree(m, n, i, named, turn)
}

/// The first row that is wrong, where there are as many rows as faces of `n`.
pub(crate) fn wrong_face(
    alloc: Global,
    m: &CornerMesh,
    n: &CornerMesh,
    rows: &[(u32, u8)],
) -> Result<Option<u64>, Memory>
    requires { length rows.now ≡ length n.now.faces }
    ensures { IfOk result (λ found. found ≡ first_failing (face_is_right m.now n.now rows.now) (length rows.now)) }
{
    let mut seen = none_marked(alloc, m.face_count())?;
    for i in 0..n.face_count() {
        if !is_right_face(m, n, rows, i, &mut seen) {
            return Ok(Some(i as u64));
        }
    }
    Ok(None)
}

/// The first row that is wrong, where there are as many rows as points of `n`.
pub(crate) fn wrong_point(
    alloc: Global,
    m: &Cloud,
    n: &Cloud,
    rows: &[(u32, u8)],
) -> Result<Option<u64>, Memory>
    requires { length rows.now ≡ length n.now.points }
    ensures { IfOk result (λ found. found ≡ first_failing (point_is_right m.now n.now rows.now) (length rows.now)) }
{
    let mut seen = none_marked(alloc, m.point_count())?;
    for i in 0..n.point_count() {
        if !is_right_point(m, n, rows, i, &mut seen) {
            return Ok(Some(i as u64));
        }
    }
    Ok(None)
}
