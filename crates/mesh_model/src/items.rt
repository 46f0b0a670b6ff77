//! Items of corners: corners with the same vertices share an item, and with it a row.

ghost use Rattle.std.specs.Prelude.{◌≡◌, ◌<◌, IfOk, IfSome, length, zip};
ghost use Rattle.mesh_model.specs.Groups.{group_tables};
ghost use Rattle.attr_heads.specs.Head.{width_of};
ghost use Rattle.mesh_model.specs.Items.{AreStoredItems};
ghost use Rattle.mesh_model.specs.Vertices.{AreGroups, attributes_in};

use crate::attributes::{Attribute, attributes_in};
use crate::corner_items::{corner_cells, corner_faces};
use crate::groups::AttrGroup;
use crate::vertex_items::{have_vertices, vertex_cells, vertex_faces};
use attr_heads::Head;
use drc_base::Memory;
use std::alloc::Global;

/// Faces by the items of their corners.
#[derive(Drop)]
pub(crate) struct ItemFaces {
    /// The items of each face.
    pub faces: Vec<[u32; 3]>,
    /// The rows of the items, one after another.
    pub cells: Vec<i32>,
    /// How many items there are.
    pub count: u32,
}

/// The items of all corners where they can be vertices.
fn vertex_items(
    alloc: Global,
    heads: &[Head],
    groups: &[AttrGroup<'_>],
    attributes: &[Attribute<'_>],
    faces: u32,
    width: u32,
) -> Result<Option<ItemFaces>, Memory>
    requires groups { AreGroups heads.now groups.now faces }
    requires some { 0 < length groups.now }
    requires width { width ≡ width_of heads.now }
    requires attributes { attributes.now ≡ attributes_in groups.now }
    ensures { IfOk result (λ found. IfSome found (λ items.
        AreStoredItems (zip heads.now (group_tables groups.now)) faces width items.faces.items items.cells.items items.count)) }
{
    let first = &groups[0];
    let vertices = first.of_corner;
    if !have_vertices(&groups[1..], vertices) {
        return Ok(None);
    }
    let Some(found) = vertex_faces(alloc, vertices, faces)? else {
        return Ok(None);
    };
    let cells = vertex_cells(alloc, heads, attributes, found.count, width)?;
    Ok(Some(ItemFaces {
        faces: found.faces,
        cells,
        count: found.count,
    }))
}

/// The items of all corners, whatever their vertices are.
fn corner_items(
    alloc: Global,
    heads: &[Head],
    groups: &[AttrGroup<'_>],
    attributes: &[Attribute<'_>],
    faces: u32,
    width: u32,
) -> Result<ItemFaces, Memory>
    requires groups { AreGroups heads.now groups.now faces }
    requires some { 0 < length groups.now }
    requires width { width ≡ width_of heads.now }
    requires attributes { attributes.now ≡ attributes_in groups.now }
    ensures { IfOk result (λ items. AreStoredItems (zip heads.now (group_tables groups.now)) faces width items.faces.items items.cells.items items.count) }
{
    let found = corner_faces(alloc, groups, faces)?;
    let cells = corner_cells(
        alloc,
        heads,
        attributes,
        3 * faces,
        found.firsts.as_slice(),
        width,
    )?;
    Ok(ItemFaces {
        faces: found.faces,
        cells,
        count: found.firsts.len() as u32,
    })
}

/// The items of all corners, whose rows have `width` integers.
pub(crate) fn items_of(
    alloc: Global,
    heads: &[Head],
    groups: &[AttrGroup<'_>],
    faces: u32,
    width: u32,
) -> Result<ItemFaces, Memory>
    requires groups { AreGroups heads.now groups.now faces }
    requires width { width ≡ width_of heads.now }
    ensures { IfOk result (λ items. AreStoredItems (zip heads.now (group_tables groups.now)) faces width items.faces.items items.cells.items items.count) }
{
    let attributes = attributes_in(alloc, groups)?;
    let attributes = attributes.as_slice();
    if let Some(items) = vertex_items(alloc, heads, groups, attributes, faces, width)? {
        return Ok(items);
    }
    corner_items(alloc, heads, groups, attributes, faces, width)
}
