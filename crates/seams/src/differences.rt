//! The seams of a mesh.
//!
//! Each pair of sides is looked at once, from the side that has its bit. At either end of the side two
//! corners meet; where they are one point they agree, else their values of the attribute are compared.

ghost use Rattle.std.specs.Prelude.{◌≡◌, ℕ, ◌+◌, ◌-◌, ◌*◌, ◌<◌, ◌≤◌, [], length, take, drop, slice_index_or, replicate, true, not, ◌||◌, IfOk};
ghost use Rattle.attr_heads.specs.Head.{width_of as heads_width};
ghost use Rattle.mesh_model.specs.Assembled.{same_row};
ghost use Rattle.corner_table.specs.Sides.{side_at, next, prev, IsGluing};
ghost use Rattle.corner_table.specs.Table.{gluing_of, glued_in};
ghost use Rattle.seams.specs.Seams.{flags_listed, AreFlags};
ghost use Rattle.seams.specs.Values.{is_seam, differ, point_at};

use crate::sides::{all_set, later_side, sides_across};
use attr_heads::Head;
use corner_table::SideTable;
use drc_base::Memory;
use mesh_model::CornerMesh;
use std::alloc::Global;

/// How many integers these heads have.
fn width_of(heads: &[Head]) -> usize
    requires { heads_width heads.now ≤ 128 }
    ensures { result ≡ heads_width heads.now }
{
    let mut width: usize = 0;
    for head in heads {
        width += head.comps as usize;
    }
    width
}

/// Where the integers of an attribute begin and end in a row.
fn span_of(m: &CornerMesh, attr: u8) -> (usize, usize)
    requires { attr < length m.now.heads }
    ensures start { result.0 ≡ heads_width (take attr m.now.heads) }
    ensures end { result.1 ≡ result.0 + heads_width (take 1 (drop attr m.now.heads)) }
    ensures within { result.1 ≤ heads_width m.now.heads }
{
    // For the prover alone: a row has 1 to 128 integers.
    let _width = m.width();
    let heads = m.heads();
    let k = attr as usize;
    let start = width_of(&heads[..k]);
    (start, start + width_of(&heads[k..k + 1]))
}

/// The point at the corner after a corner in its face.
fn point_after(m: &CornerMesh, corner: u32) -> u32
    requires { corner < 3 * length m.now.faces }
    ensures point { result ≡ point_at m.now (next (side_at corner)) }
    ensures within { result < length m.now.points }
{
    let face = m.face(corner / 3);
    match corner % 3 {
        0 => face[1],
        1 => face[2],
        _ => face[0],
    }
}

/// The point at the corner before a corner in its face.
fn point_before(m: &CornerMesh, corner: u32) -> u32
    requires { corner < 3 * length m.now.faces }
    ensures point { result ≡ point_at m.now (prev (side_at corner)) }
    ensures within { result < length m.now.points }
{
    let face = m.face(corner / 3);
    match corner % 3 {
        0 => face[2],
        1 => face[0],
        _ => face[1],
    }
}

/// Whether two lists of integers differ.
fn are_apart(a: &[i32], b: &[i32]) -> bool
    ensures { result ≡ not (same_row a.now b.now) }
{
    a != b
}

/// Whether two points differ in the integers of a part of their rows.
fn points_differ(m: &CornerMesh, span: (usize, usize), p: u32, q: u32) -> bool
    requires span { span.0 ≤ span.1 }
    requires within { span.1 ≤ heads_width m.now.heads }
    requires first { p < length m.now.points }
    requires second { q < length m.now.points }
    ensures { result ≡ not (same_row (take (span.1 - span.0) (drop span.0 (slice_index_or m.now.points p []))) (take (span.1 - span.0) (drop span.0 (slice_index_or m.now.points q [])))) }
{
    if p == q {
        return false;
    }
    are_apart(&m.point(p)[span.0..span.1], &m.point(q)[span.0..span.1])
}

/// Whether at either end of a pair of sides its two corners differ in an attribute.
fn pair_differs(m: &CornerMesh, span: (usize, usize), x: u32, y: u32) -> bool
    requires span { span.0 ≤ span.1 }
    requires within { span.1 ≤ heads_width m.now.heads }
    requires first { x < 3 * length m.now.faces }
    requires second { y < 3 * length m.now.faces }
    ensures { (k : ℕ) → span.0 ≡ heads_width (take k m.now.heads) → span.1 ≡ span.0 + heads_width (take 1 (drop k m.now.heads)) →
        result ≡ (differ m.now k (next (side_at x)) (prev (side_at y)) || differ m.now k (prev (side_at x)) (next (side_at y))) }
{
    if points_differ(m, span, point_after(m, x), point_before(m, y)) {
        return true;
    }
    points_differ(m, span, point_before(m, x), point_after(m, y))
}

/// Writes for both sides of each pair whether it is a seam, where each flag is set before.
fn mark_seams(m: &CornerMesh, across: &[u32], attr: u8, flags: &mut [bool])
    requires attribute { attr < length m.now.heads }
    requires gluing { IsGluing (length m.now.faces) (glued_in across.now) }
    requires room { 3 * length m.now.faces ≤ length across.now }
    requires set { flags.old ≡ replicate (3 * length m.now.faces) true }
    ensures { flags.new ≡ flags_listed (length m.now.faces) (is_seam m.now attr (glued_in across.now)) }
{
    let faces = m.face_count();
    let span = span_of(m, attr);
    for side in 0..3 * faces {
        match later_side(across, faces, side) {
            None => {}
            Some(other) => {
                let flag = pair_differs(m, span, side, other);
                flags[side as usize] = flag;
                flags[other as usize] = flag;
            }
        }
    }
}

/// The flags of the sides of a mesh's surface.
fn marked(alloc: Global, m: &CornerMesh, t: &SideTable, attr: u8) -> Result<Vec<bool>, Memory>
    requires attribute { attr < length m.now.heads }
    requires faces { t.now.faces ≡ length m.now.faces }
    ensures { IfOk result (λ v. v.items ≡ flags_listed t.now.faces (is_seam m.now attr (gluing_of t.now))) }
{
    let faces = t.face_count();
    let mut flags = all_set(alloc, 3 * faces as usize)?;
    mark_seams(m, sides_across(t), attr, flags.as_mut_slice());
    Ok(flags)
}

/// Of each side 3f + k of a mesh's surface, whether it is a seam of attribute `attr`: boundaries are, and a
/// pair is one where at either of its ends the two corners that meet there differ in the attribute (this
/// project's choice). Fails only when out of memory.
pub fn seams_of(alloc: Global, m: &CornerMesh, t: &SideTable, attr: u8) -> Result<Vec<bool>, Memory>
    requires attribute { attr < length m.now.heads }
    requires faces { t.now.faces ≡ length m.now.faces }
    ensures seams { IfOk result (λ v. v.items ≡ flags_listed t.now.faces (is_seam m.now attr (gluing_of t.now))) }
    ensures flags { IfOk result (λ v. AreFlags t.now.faces (gluing_of t.now) v.items) }
{
    // For the prover alone: the entries of a table are a gluing.
    let _faces = t.face_count();
    let flags = marked(alloc, m, t, attr)?;
    Ok(flags)
}
