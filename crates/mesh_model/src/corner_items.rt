//! Items of corners, whatever vertices these have: corners with the same vertices share an item.
//!
//! The group with the most vertices is the key: it is cut at seams the most, so that each of its vertices mostly has one
//! item. Of each vertex of the key the latest item that has it is kept. A corner looks up its vertex of the key: where
//! there is such an item, and the vertices of all groups are the same, the corner has that item; else it is the first
//! corner of a new one. This takes a few steps a corner, whatever the groups hold. Items are no more than corners.

ghost use Rattle.std.specs.Prelude.{◌≡◌, ◌+◌, ◌-◌, ◌*◌, ◌<◌, ◌≤◌, ◌^◌, ◌↔◌, ◌++◌, ◌∷◌, [], ℕ, List, All, IfOk, OnOk, IsTrue, length, map, slice_index, slice_set, zip};
ghost use Rattle.std.specs.List.{range_with_len};
ghost use Rattle.mesh_model.specs.Assembled.{corner_row, triple};
ghost use Rattle.mesh_model.specs.Groups.{HasVertices};
ghost use Rattle.mesh_model.specs.Items.{AreItems, AreLatest, HasItem, HaveItems, HaveSameVertices};
ghost use Rattle.mesh_model.specs.Parts.{cells_of};
ghost use Rattle.mesh_model.specs.Vertices.{AreWhole, table_of};

use crate::attributes::{Attribute, put_corner};
use crate::groups::AttrGroup;
use attr_heads::Head;
use drc_base::{MAX_FACES, Memory};
use std::alloc::Global;

/// Whether two corners have the same vertex in each group.
fn have_same_vertices(groups: &[AttrGroup<'_>], corners: u32, a: u32, b: u32) -> bool
    requires each { All (λ g. length g.of_corner ≡ corners) groups.now }
    requires corners { (a < corners) × (b < corners) }
    ensures { IsTrue result ↔ HaveSameVertices groups.now a b }
{
    for group in groups {
        let vertices = group.of_corner;
        if vertices[a as usize] != vertices[b as usize] {
            return false;
        }
    }
    true
}

/// The items so far.
#[derive(Drop)]
struct Items {
    /// Of each vertex of the key the latest item that has it, plus one, or 0.
    latest: Vec<u32>,
    /// Of each item its first corner.
    firsts: Vec<u32>,
}

/// The item `latest` where it is not 0, if its first corner has the same vertices as `corner`; or 0.
fn shared_item(
    groups: &[AttrGroup<'_>],
    corners: u32,
    firsts: &[u32],
    latest: u32,
    corner: u32,
) -> u32
    requires each { All (λ g. length g.of_corner ≡ corners) groups.now }
    requires corner { corner < corners }
    requires latest { latest ≤ length firsts.now }
    requires firsts { (i : ℕ) → i < length firsts.now → slice_index firsts.now i < corners }
    ensures { 0 < result → (result ≡ latest) × HaveSameVertices groups.now (slice_index firsts.now (result - 1)) corner }
{
    if latest != 0 && have_same_vertices(groups, corners, firsts[latest as usize - 1], corner) {
        latest
    } else {
        0
    }
}

/// Adds an item, whose first corner is `corner`, with this vertex of the key.
#[inline(never)]
fn add_item(items: &mut Items, vertex: u32, corner: u32) -> Result<u32, Memory>
    requires vertex { vertex < length items.old.latest.items }
    requires room { length items.old.firsts.items + 1 < 2 ^ 32 }
    ensures item { IfOk result (λ item. item ≡ length items.old.firsts.items) }
    ensures latest { OnOk result (items.new.latest.items ≡ slice_set items.old.latest.items vertex (length items.old.firsts.items + 1)) }
    ensures firsts { OnOk result (items.new.firsts.items ≡ items.old.firsts.items ++ corner ∷ []) }
{
    let item = items.firsts.len() as u32;
    items.firsts.push(corner)?;
    items.latest[vertex as usize] = item + 1;
    Ok(item)
}

/// The item of the next corner; `vertices` are those of the key.
#[inline(always)]
fn item_of(
    items: &mut Items,
    groups: &[AttrGroup<'_>],
    vertices: &[u32],
    corners: u32,
    corner: u32,
) -> Result<u32, Memory>
    requires groups { All (HasVertices corners) groups.now }
    requires few { corners ≤ 3 * MAX_FACES }
    requires corner { corner < corners }
    requires each { length vertices.now ≡ corners }
    requires vertices { All (λ v. v < length items.old.latest.items) vertices.now }
    requires items { AreItems groups.now corners corner items.old.firsts.items }
    requires latest { AreLatest items.old.latest.items items.old.firsts.items }
    ensures items { OnOk result (AreItems groups.now corners (corner + 1) items.new.firsts.items) }
    ensures latest { OnOk result (AreLatest items.new.latest.items items.new.firsts.items) }
    ensures vertices { OnOk result (length items.new.latest.items ≡ length items.old.latest.items) }
    ensures keeps { OnOk result ((c item : ℕ) → HasItem groups.now items.old.firsts.items c item → HasItem groups.now items.new.firsts.items c item) }
    ensures item { IfOk result (λ item. HasItem groups.now items.new.firsts.items corner item) }
{
    let vertex = vertices[corner as usize];
    let latest = items.latest[vertex as usize];
    let firsts = items.firsts.as_slice();
    let shared = shared_item(groups, corners, firsts, latest, corner);
    if shared != 0 {
        return Ok(shared - 1);
    }
    let item = add_item(items, vertex, corner)?;
    Ok(item)
}

/// The group with the most vertices, the first among equals.
fn key_of(groups: &[AttrGroup<'_>]) -> usize
    requires some { 0 < length groups.now }
    ensures { result < length groups.now }
{
    let mut key: usize = 0;
    let mut most: usize = 0;
    for j in 0..groups.len() {
        let group = &groups[j];
        let vertices = group.entry_of.len();
        if vertices > most {
            key = j;
            most = vertices;
        }
    }
    key
}

/// Faces by the items of their corners.
#[derive(Drop)]
pub(crate) struct CornerFaces {
    /// The items of each face.
    pub faces: Vec<[u32; 3]>,
    /// Of each item its first corner.
    pub firsts: Vec<u32>,
}

/// No items, with a place for each vertex of the key. There is room for an item a vertex, as far as corners
/// can have so many, which is what meshes mostly take.
fn no_items(alloc: Global, vertices: usize, corners: u32) -> Result<Items, Memory>
    ensures latest { IfOk result (λ items. (length items.latest.items ≡ vertices) × All (λ item. item ≡ 0) items.latest.items) }
    ensures firsts { IfOk result (λ items. items.firsts.items ≡ []) }
{
    Ok(Items {
        latest: vec![in alloc; 0; vertices]?,
        firsts: Vec::with_capacity(alloc, vertices.min(corners as usize))?,
    })
}

/// The items of all corners.
#[inline(never)]
pub(crate) fn corner_faces(
    alloc: Global,
    groups: &[AttrGroup<'_>],
    faces: u32,
) -> Result<CornerFaces, Memory>
    requires groups { All (HasVertices (3 * faces)) groups.now }
    requires some { 0 < length groups.now }
    requires few { faces ≤ MAX_FACES }
    ensures items { IfOk result (λ made. AreItems groups.now (3 * faces) (3 * faces) made.firsts.items) }
    ensures faces { IfOk result (λ made. (items : List ℕ) × HaveItems groups.now (3 * faces) items made.firsts.items
        × (made.faces.items ≡ map (triple items) (range_with_len 0 faces))) }
{
    let corners = 3 * faces;
    let key = &groups[key_of(groups)];
    let vertices = key.of_corner;
    let mut items = no_items(alloc, key.entry_of.len(), corners)?;
    let mut made: Vec<[u32; 3]> = Vec::with_capacity(alloc, faces as usize)?;
    for f in 0..faces {
        let first = item_of(&mut items, groups, vertices, corners, 3 * f)?;
        let second = item_of(&mut items, groups, vertices, corners, 3 * f + 1)?;
        let third = item_of(&mut items, groups, vertices, corners, 3 * f + 2)?;
        made.push_reserved([first, second, third]);
    }
    Ok(CornerFaces {
        faces: made,
        firsts: items.firsts,
    })
}

/// The rows of these corners, one after another.
#[inline(never)]
pub(crate) fn corner_cells(
    alloc: Global,
    heads: &[Head],
    attributes: &[Attribute<'_>],
    corners: u32,
    chosen: &[u32],
    width: u32,
) -> Result<Vec<i32>, Memory>
    requires attributes { AreWhole corners heads.now attributes.now }
    requires chosen { All (λ c. c < corners) chosen.now }
    requires few { length chosen.now ≤ corners }
    ensures { IfOk result (λ cells. cells.items ≡ cells_of (map (corner_row (zip heads.now (map table_of attributes.now))) chosen.now)) }
{
    let mut cells = Vec::with_capacity(alloc, chosen.len() * width as usize)?;
    for corner in chosen {
        put_corner(&mut cells, heads, attributes, corners, *corner)?;
    }
    Ok(cells)
}
