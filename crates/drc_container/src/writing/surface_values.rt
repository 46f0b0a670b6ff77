//! The values of a mesh's attributes, each in its order.

ghost use Rattle.std.specs.Prelude.{◌≡◌, ◌+◌, ◌<◌, ◌≤◌, ◌*◌, ◌^◌, map, take, drop, flat_map, length, All, IfOk};
ghost use Rattle.drc_base.specs.Refusals.{Answers};
ghost use Rattle.attr_heads.specs.FirstFault.{value_unless};
ghost use Rattle.attr_heads.specs.Head.{width_of};
ghost use Rattle.corner_table.specs.Sides.{side_at};
ghost use Rattle.seams.specs.Values.{piece};
ghost use Rattle.attr_section.specs.Attributes.{values_in};
ghost use Rattle.drc_container.specs.choice.Refused.{values_fault};
ghost use Rattle.drc_container.specs.writing.WrittenOnSurface.{coded_values};
ghost use Rattle.drc_container.specs.surface.AttributeSurfaces.{glued_on, AreAttributeSurfaces};

use crate::choice::codings::Coding;
use crate::choice::refusals::{test_ranges, unless};
use crate::surface::attribute_surfaces::{AttributeSurfaces, surface_at};
use crate::surface::turned_meshes::TurnedMesh;
use crate::writing::coded_values::{put_piece, values_asked};
use attr_section::Values;
use corner_table::side_with;
use drc_base::{Kind, MAX_VALUES, Memory, Refusal};
use std::alloc::Global;

/// How many values are coded: of each attribute its integers at each entry of its order.
fn value_count(s: &AttributeSurfaces<'_>, coding: &Coding) -> u64
    requires { AreAttributeSurfaces coding.now.degree s.now }
    ensures { result ≡ values_in (coded_values coding.now (glued_on s.now)) }
{
    let mut count: u64 = 0;
    for (attr, head) in s.mesh.heads().iter().enumerate() {
        let entries = surface_at(s, attr).order.corner_of_entry.len();
        count += entries as u64 * u64::from(head.comps);
    }
    count
}

/// The integers of attribute `attr`, which are the `comps` from integer `start` of a point on, at each of these corners
/// (by their numbers 3f + k).
fn column_at(
    alloc: Global,
    mesh: &TurnedMesh<'_>,
    corners: &[u32],
    attr: usize,
    start: usize,
    comps: usize,
) -> Result<Vec<i32>, Memory>
    requires corners { All (λ c. c < 3 * length mesh.now.faces) corners.now }
    requires few { length corners.now < 2 ^ 32 }
    requires start { start ≡ width_of (take attr mesh.now.heads) }
    requires comps { comps ≡ width_of (take 1 (drop attr mesh.now.heads)) }
    requires within { start + comps ≤ width_of mesh.now.heads }
    ensures { IfOk result (λ v. v.items ≡ flat_map (piece mesh.now attr) (map side_at corners.now)) }
{
    // For the prover alone: a row has at most 128 integers.
    let _width = mesh.width();
    let mut column = Vec::with_capacity(alloc, corners.len() * comps)?;
    for corner in corners {
        let row = mesh.corner(side_with(*corner));
        put_piece(&mut column, &row[start..start + comps]);
    }
    Ok(column)
}

/// The values of each attribute, in its order.
fn columns_on(
    alloc: Global,
    s: &AttributeSurfaces<'_>,
    coding: &Coding,
) -> Result<Vec<Values>, Memory>
    requires { AreAttributeSurfaces coding.now.degree s.now }
    ensures { IfOk result (λ v. v.items ≡ coded_values coding.now (glued_on s.now)) }
{
    let mut values = Vec::new(alloc);
    let mut start: usize = 0;
    for (attr, head) in s.mesh.heads().iter().enumerate() {
        let comps = head.comps as usize;
        let corners = surface_at(s, attr).order.corner_of_entry.as_slice();
        let column = column_at(alloc, &s.mesh, corners, attr, start, comps)?;
        values.push(values_asked(coding.predict, head, column))?;
        start += comps;
    }
    Ok(values)
}

/// The values of each attribute, in its order. Refusals: ValueLimit at the number of values, before
/// room is taken for them; Range at the first attribute whose values lie too far apart
/// to be corrected by wrap.
pub fn values_on(
    alloc: Global,
    s: &AttributeSurfaces<'_>,
    coding: &Coding,
) -> Result<Vec<Values>, Refusal>
    requires { AreAttributeSurfaces coding.now.degree s.now }
    ensures { Answers (λ v. v.items) (value_unless (values_fault coding.now (glued_on s.now)) (coded_values coding.now (glued_on s.now))) result }
{
    let count = value_count(s, coding);
    unless(count <= u64::from(MAX_VALUES), Kind::ValueLimit, count)?;
    let values = columns_on(alloc, s, coding)?;
    test_ranges(s.mesh.heads(), values.as_slice())?;
    Ok(values)
}
