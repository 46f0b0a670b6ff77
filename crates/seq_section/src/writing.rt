//! Writing the connectivity of a sequential mesh.

ghost use Rattle.std.specs.Prelude.{◌≡◌, ◌≤◌, ◌++◌, length, OnOk, All, if◌then◌else◌};
ghost use Rattle.std.specs.List.{flat_map};
ghost use Rattle.drc_base.specs.Profile.{profile};
ghost use Rattle.drc_bits.specs.Spells.{Spells};
ghost use Rattle.seq_section.specs.Indices.{faces_at, indices_at, indices_opening_bytes, faces_bytes, indices_bytes, IsFaceBelow};

use crate::methods::{PACKED, PLAIN};
use crate::packed::put_packed;
use crate::plain_writing::put_plain;
use drc_base::{MAX_FACES, MAX_POINTS, Memory};
use drc_bits::put_var32;
use std::alloc::Global;
use std::mem;

/// Appends the section of these faces beside `points` points, with packed indices or with each by itself.
/// Read at its beginning, whatever bytes follow, it gives the faces and the number of points. An answer of
/// `Memory` leaves the bytes open.
#[tactic(auto, unfolding(crate::specs::Indices::indices_bytes))]
pub fn write_indices(
    alloc: Global,
    out: &mut Vec<u8>,
    faces: &[[u32; 3]],
    points: u32,
    packed: bool,
) -> Result<(), Memory>
    requires few_faces { length faces.now ≤ MAX_FACES }
    requires few_points { points ≤ MAX_POINTS }
    requires below { All (IsFaceBelow points) faces.now }
    ensures bytes { OnOk result (out.new.items ≡ out.old.items ++ indices_bytes packed faces.now points) }
    ensures again { OnOk result (Spells (indices_at profile) (indices_bytes packed faces.now points) (record { faces = faces.now; points = points })) }
{
    let method = if packed { PACKED } else { PLAIN };
    put_opening(out, faces.len() as u32, points, method)?;
    put_faces(alloc, out, faces, points, packed)?;
    Ok(())
}

/// Appends the faces, which are read back behind the opening.
fn put_faces(
    alloc: Global,
    out: &mut Vec<u8>,
    faces: &[[u32; 3]],
    points: u32,
    packed: bool,
) -> Result<(), Memory>
    requires few_faces { length faces.now ≤ MAX_FACES }
    requires few_points { points ≤ MAX_POINTS }
    requires below { All (IsFaceBelow points) faces.now }
    ensures bytes { OnOk result (out.new.items ≡ out.old.items ++ faces_bytes packed faces.now points) }
    ensures behind { OnOk result (Spells (faces_at (record { faces = length faces.now; points = points; method = if packed then 0 else 1 })) (faces_bytes packed faces.now points) faces.now) }
{
    if packed {
        put_packed(alloc, out, faces, points)?;
    } else {
        let front = mem::replace(out, Vec::new(alloc));
        *out = put_plain(front, faces, points)?;
    }
    Ok(())
}

/// Appends the numbers of faces and of points, and the method.
fn put_opening(out: &mut Vec<u8>, faces: u32, points: u32, method: u8) -> Result<(), Memory>
    ensures { OnOk result (out.new.items ≡ out.old.items ++ indices_opening_bytes faces points method) }
{
    out.extend_from_slice(&put_var32(faces))?;
    out.extend_from_slice(&put_var32(points))?;
    out.push(method)?;
    Ok(())
}
