//! The attributes of groups, and the rows that vertices and corners have of them.

ghost use Rattle.std.specs.Prelude.{◌≡◌, ◌+◌, ◌*◌, ◌<◌, ◌≤◌, ◌++◌, All, IfOk, OnOk, length, map, take, slice_index, zip};
ghost use Rattle.mesh_model.specs.Assembled.{corner_row};
ghost use Rattle.mesh_model.specs.Vertices.{AreWhole, IsWholeAt, attributes_in, attributes_of, table_of, vertex_entry, vertex_row};

use crate::groups::AttrGroup;
use attr_heads::Head;
use drc_base::Memory;
use std::alloc::Global;
use std::marker::Model;

/// An attribute of a group. Contracts see it as its lists.
#[derive(Drop)]
pub(crate) struct Attribute<'t> {
    of_corner: &'t [u32],
    entry_of: &'t [u32],
    values: &'t [i32],
}

impl<'t> Model for Attribute<'t> {
    ghost use Rattle.mesh_model.specs.Vertices.{AttributeParts};

    ghost Value = { AttributeParts };

    ghost view = { λ a. record { of_corner = a.of_corner.now; entry_of = a.entry_of.now; values = a.values.now } };
}

/// Appends the attributes of a group.
fn put_attributes<'t>(
    attributes: &mut Vec<Attribute<'t>>,
    group: &AttrGroup<'t>,
) -> Result<(), Memory>
    ensures { OnOk result (attributes.new.items ≡ attributes.old.items ++ attributes_of group.now) }
{
    let of_corner = group.of_corner;
    let entry_of = group.entry_of;
    let lists = group.values;
    for values in lists {
        attributes.push(Attribute {
            of_corner,
            entry_of,
            values: values.as_slice(),
        })?;
    }
    Ok(())
}

/// The attributes of groups, in order.
pub(crate) fn attributes_in<'t>(
    alloc: Global,
    groups: &[AttrGroup<'t>],
) -> Result<Vec<Attribute<'t>>, Memory>
    ensures { IfOk result (λ v. v.items ≡ attributes_in groups.now) }
{
    let mut attributes = Vec::new(alloc);
    for group in groups {
        put_attributes(&mut attributes, group)?;
    }
    Ok(attributes)
}

/// The values of an attribute at a vertex.
fn values_at<'a>(head: &Head, attribute: &'a Attribute<'_>, vertex: u32) -> &'a [i32]
    requires { IsWholeAt vertex (head.now, attribute.now) }
    ensures values { result.now ≡ vertex_entry vertex (head.now, attribute.now) }
    ensures len { length result.now ≡ head.now.comps }
{
    let entry = attribute.entry_of[vertex as usize];
    let start = entry as usize * head.comps as usize;
    let end = start + head.comps as usize;
    &attribute.values[start..end]
}

/// The values of an attribute of three components at a vertex.
#[inline(always)]
pub(crate) fn triple_at(head: &Head, attribute: &Attribute<'_>, vertex: u32) -> [i32; 3]
    requires whole { IsWholeAt vertex (head.now, attribute.now) }
    requires three { head.now.comps ≡ 3 }
    ensures { result ≡ vertex_entry vertex (head.now, attribute.now) }
{
    let values = values_at(head, attribute, vertex);
    [values[0], values[1], values[2]]
}

/// Appends values: a few one by one, which costs less than a call that copies.
#[inline(always)]
fn put_values(cells: &mut Vec<i32>, values: &[i32]) -> Result<(), Memory>
    ensures { OnOk result (cells.new.items ≡ cells.old.items ++ values.now) }
{
    match values {
        [a] => cells.push(*a)?,
        [a, b] => {
            cells.push(*a)?;
            cells.push(*b)?;
        }
        [a, b, d] => {
            cells.push(*a)?;
            cells.push(*b)?;
            cells.push(*d)?;
        }
        _ => cells.extend_from_slice(values)?,
    }
    Ok(())
}

/// Appends the row of a vertex.
pub(crate) fn put_vertex(
    cells: &mut Vec<i32>,
    heads: &[Head],
    attributes: &[Attribute<'_>],
    vertex: u32,
) -> Result<(), Memory>
    requires each { length attributes.now ≡ length heads.now }
    requires whole { All (IsWholeAt vertex) (zip heads.now attributes.now) }
    ensures { OnOk result (cells.new.items ≡ cells.old.items ++ vertex_row (zip heads.now attributes.now) vertex) }
{
    for j in 0..heads.len() {
        put_values(cells, values_at(&heads[j], &attributes[j], vertex))?;
    }
    Ok(())
}

/// The values of attribute `j` at the vertex of a corner.
fn values_of<'a>(
    heads: &[Head],
    attributes: &'a [Attribute<'_>],
    corners: u32,
    j: usize,
    corner: u32,
) -> &'a [i32]
    requires attributes { AreWhole corners heads.now attributes.now }
    requires places { (j < length heads.now) × (corner < corners) }
    ensures { corner_row (take (j + 1) (zip heads.now (map table_of attributes.now))) corner
        ≡ corner_row (take j (zip heads.now (map table_of attributes.now))) corner ++ result.now }
{
    let attribute = &attributes[j];
    let vertex = attribute.of_corner[corner as usize];
    values_at(&heads[j], attribute, vertex)
}

/// Appends the row of a corner.
pub(crate) fn put_corner(
    cells: &mut Vec<i32>,
    heads: &[Head],
    attributes: &[Attribute<'_>],
    corners: u32,
    corner: u32,
) -> Result<(), Memory>
    requires attributes { AreWhole corners heads.now attributes.now }
    requires corner { corner < corners }
    ensures { OnOk result (cells.new.items ≡ cells.old.items ++ corner_row (zip heads.now (map table_of attributes.now)) corner) }
{
    for j in 0..heads.len() {
        put_values(cells, values_of(heads, attributes, corners, j, corner))?;
    }
    Ok(())
}
