//! Items that are the vertices themselves.
//!
//! Where all groups have the same vertices, and these go 0, 1, 2, .. as they come first, a corner's vertex is its
//! item: it is the next number at its first corner, and below it at the others. So faces are the vertices by three,
//! and rows are put in the order of the numbers.

ghost use Rattle.std.specs.Prelude.{◌≡◌, ◌+◌, ◌*◌, ◌<◌, ◌≤◌, ◌↔◌, ℕ, All, IfOk, IfSome, IsTrue, length, map, slice_index, zip};
ghost use Rattle.std.specs.List.{range_with_len};
ghost use Rattle.mesh_model.specs.Assembled.{triple};
ghost use Rattle.mesh_model.specs.Parts.{cells_of};
ghost use Rattle.mesh_model.specs.Vertices.{AreInOrder, IsWholeAt, vertex_entry, vertex_row};

use crate::attributes::{Attribute, put_vertex, triple_at};
use crate::groups::AttrGroup;
use attr_heads::Head;
use drc_base::{MAX_FACES, Memory};
use std::alloc::Global;

/// Whether two corner lists have the same vertices.
fn are_same(a: &[u32], b: &[u32]) -> bool
    ensures { IsTrue result ↔ (a.now ≡ b.now) }
{
    a == b
}

/// Whether these groups have these vertices at the corners.
pub(crate) fn have_vertices(groups: &[AttrGroup<'_>], vertices: &[u32]) -> bool
    ensures { IsTrue result → All (λ g. g.of_corner ≡ vertices.now) groups.now }
{
    for group in groups {
        let others = group.of_corner;
        if !are_same(others, vertices) {
            return false;
        }
    }
    true
}

/// How many vertices there are with one more corner, or none where its number is above the next one.
#[inline(always)]
fn count_with(vertices: &[u32], corner: u32, count: u32) -> Option<u32>
    requires corner { corner < length vertices.now }
    requires few { corner < 3 * MAX_FACES }
    requires ordered { AreInOrder vertices.now corner count }
    ensures { IfSome result (λ n. AreInOrder vertices.now (corner + 1) n) }
{
    let vertex = vertices[corner as usize];
    if vertex > count {
        return None;
    }
    Some(count.max(vertex + 1))
}

/// How many vertices there are with the three corners from `first` on, or none where a number is above the next one.
#[inline(always)]
fn count_with_face(vertices: &[u32], first: u32, count: u32) -> Option<u32>
    requires corners { first + 3 ≤ length vertices.now }
    requires few { first + 3 ≤ 3 * MAX_FACES }
    requires ordered { AreInOrder vertices.now first count }
    ensures { IfSome result (λ n. AreInOrder vertices.now (first + 3) n) }
{
    let one = count_with(vertices, first, count)?;
    let two = count_with(vertices, first + 1, one)?;
    count_with(vertices, first + 2, two)
}

/// Faces by the vertices of their corners.
#[derive(Drop)]
pub(crate) struct VertexFaces {
    /// The vertices of each face.
    pub faces: Vec<[u32; 3]>,
    /// How many vertices there are.
    pub count: u32,
}

/// The faces of corners whose vertices go 0, 1, 2, .. as they come first; none where they don't.
#[inline(never)]
pub(crate) fn vertex_faces(
    alloc: Global,
    vertices: &[u32],
    faces: u32,
) -> Result<Option<VertexFaces>, Memory>
    requires each { length vertices.now ≡ 3 * faces }
    requires few { faces ≤ MAX_FACES }
    ensures { IfOk result (λ found. IfSome found (λ v. AreInOrder vertices.now (3 * faces) v.count
        × (v.faces.items ≡ map (triple vertices.now) (range_with_len 0 faces)))) }
{
    let mut made: Vec<[u32; 3]> = Vec::with_capacity(alloc, faces as usize)?;
    let mut count = 0;
    for f in 0..faces {
        let first = 3 * f;
        let Some(next) = count_with_face(vertices, first, count) else {
            return Ok(None);
        };
        made.push_reserved([
            vertices[first as usize],
            vertices[first as usize + 1],
            vertices[first as usize + 2],
        ]);
        count = next;
    }
    Ok(Some(VertexFaces { faces: made, count }))
}

/// The values of the first `count` vertices of an attribute of three components, one after another.
#[inline(never)]
fn triple_cells(
    alloc: Global,
    head: &Head,
    attribute: &Attribute<'_>,
    count: u32,
) -> Result<Vec<i32>, Memory>
    requires three { head.now.comps ≡ 3 }
    requires whole { (v : ℕ) → v < count → IsWholeAt v (head.now, attribute.now) }
    ensures { IfOk result (λ cells. cells.items ≡ cells_of (map (λ v. vertex_entry v (head.now, attribute.now)) (range_with_len 0 count))) }
{
    let mut cells: Vec<i32> = Vec::with_capacity(alloc, 3 * count as usize)?;
    for vertex in 0..count {
        let triple = triple_at(head, attribute, vertex);
        cells.push_reserved(triple[0]);
        cells.push_reserved(triple[1]);
        cells.push_reserved(triple[2]);
    }
    Ok(cells)
}

/// The rows of the first `count` vertices, one after another.
pub(crate) fn vertex_cells(
    alloc: Global,
    heads: &[Head],
    attributes: &[Attribute<'_>],
    count: u32,
    width: u32,
) -> Result<Vec<i32>, Memory>
    requires each { length attributes.now ≡ length heads.now }
    requires whole { (v : ℕ) → v < count → All (IsWholeAt v) (zip heads.now attributes.now) }
    ensures { IfOk result (λ cells. cells.items ≡ cells_of (map (vertex_row (zip heads.now attributes.now)) (range_with_len 0 count))) }
{
    if heads.len() == 1 && heads[0].comps == 3 {
        let cells = triple_cells(alloc, &heads[0], &attributes[0], count)?;
        return Ok(cells);
    }
    let mut cells = Vec::with_capacity(alloc, count as usize * width as usize)?;
    for vertex in 0..count {
        put_vertex(&mut cells, heads, attributes, vertex)?;
    }
    Ok(cells)
}
