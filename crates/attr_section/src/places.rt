//! The places of entries, by the positions at their corners, and the normals of the faces round them.

ghost use Rattle.std.specs.Prelude.{◌≡◌, ◌<◌, ◌≤◌, ℕ, IfOk, All, length, get_or, pos};
ghost use Rattle.corner_table.specs.Sides.{side_at};
ghost use Rattle.corner_table.specs.Ordered.{entries_by};
ghost use Rattle.predict.specs.Surfaces.{surface, IsOverTable};
ghost use Rattle.octahedral_values.specs.Steps.{normals_round};
ghost use Rattle.attr_section.specs.Positions.{coordinate, place_of, place_at, places_on};
ghost use Rattle.attr_section.specs.TablePositions.{positions_in};

use crate::positions::Positions;
use drc_base::Memory;
use octahedral_values::normals_round;
use predict::Ordered;
use std::alloc::Global;
use wrapped_vectors::{Place, Vector};

/// The number in a list, 0 where it has none there.
fn number_or_zero(numbers: &[u32], at: u32) -> u32
    ensures { result ≡ get_or numbers.now at 0 }
{
    match numbers.get(at as usize) {
        None => 0,
        Some(number) => *number,
    }
}

/// Coordinate `j` of entry `e`, 0 where there is none.
fn coordinate(values: &[i32], e: u32, j: u32) -> i32
    requires { j < 3 }
    ensures { result ≡ coordinate values.now e j }
{
    match values.get(3 * e as usize + j as usize) {
        None => 0,
        Some(value) => *value,
    }
}

/// The place of an entry of positions.
fn place_of(values: &[i32], e: u32) -> Place
    ensures { result ≡ place_of values.now e }
{
    Place {
        x: coordinate(values, e, 0),
        y: coordinate(values, e, 1),
        z: coordinate(values, e, 2),
    }
}

/// The entry of a corner, by its class; 0 where the corner has none.
fn entry_at(classes: &[u32], entry_of_class: &[u32], corner: u32) -> u32
    ensures { result ≡ get_or (entries_by classes.now entry_of_class.now) corner 0 }
{
    if corner as usize >= classes.len() {
        return 0;
    }
    number_or_zero(entry_of_class, classes[corner as usize])
}

/// The position at a corner.
fn place_at(positions: &Positions<'_>, corner: u32) -> Place
    ensures { result ≡ place_at (positions_in positions.now) (side_at corner) }
{
    let entry = entry_at(positions.classes, positions.entry_of_class, corner);
    place_of(positions.values, entry)
}

/// For each entry of an ordered surface the position at its corner. It takes memory for them, 12 bytes an
/// entry, and fails only when out of memory.
#[tactic(auto, unfolding(crate::specs::Positions::places_on))]
pub fn places_on(
    alloc: Global,
    positions: &Positions<'_>,
    on: &Ordered<'_>,
) -> Result<Vec<Place>, Memory>
    ensures places { IfOk result (λ v. v.items ≡ places_on (positions_in positions.now) (surface on.now)) }
    ensures len { IfOk result (λ v. length v.items ≡ length on.now.order.now.corner_of_entry) }
{
    let corners = on.order.corner_of_entry.as_slice();
    let mut places = Vec::with_capacity(alloc, corners.len())?;
    for corner in corners {
        places.push_reserved(place_at(positions, *corner));
    }
    Ok(places)
}

/// For each entry of an ordered surface the sum of the normals of the faces round it, to 64 bits, by the positions at its entries. It takes
/// memory for these, 12 bytes an entry, which is freed again, and for the sums, 24 bytes an entry, and fails only when out of memory.
pub fn normals_on(
    alloc: Global,
    positions: &Positions<'_>,
    on: &Ordered<'_>,
) -> Result<Vec<Vector>, Memory>
    requires over { IsOverTable on.now }
    requires entries { All (λ (e : ℕ). e < length on.now.order.now.corner_of_entry) (surface on.now).entries }
    ensures sums { IfOk result (λ v. v.items ≡ normals_round (surface on.now).entries (places_on (positions_in positions.now) (surface on.now))) }
    ensures len { IfOk result (λ v. length v.items ≡ length on.now.order.now.corner_of_entry) }
{
    // For the prover alone: a surface has three corners for each face.
    let _faces = on.sides.face_count();
    let places = places_on(alloc, positions, on)?;
    let classes = on.classes.of_corner.as_slice();
    let entry_of_class = on.order.entry_of_class.as_slice();
    let sums = normals_round(alloc, classes, entry_of_class, &places)?;
    Ok(sums)
}
