//! Reading the connectivity of a sequential mesh.

ghost use Rattle.std.specs.Prelude.{◌≡◌, ◌≤◌, Err, IfOk, OnErr, nat_le};
ghost use Rattle.drc_base.specs.declared.faults.Fault.{Fault as AnyFault};
ghost use Rattle.drc_base.specs.declared.faults.Refusal.TheVariants as refusal;
ghost use Rattle.drc_base.specs.Profile.{profile};
ghost use Rattle.drc_bits.specs.Reading.{Reads, Gives, must};
ghost use Rattle.drc_bits.specs.Varint.{var32_at};
ghost use Rattle.seq_section.specs.Indices.{method_at, indices_opening_at, faces_at, indices_at};

use crate::methods::{PACKED, PLAIN};
use crate::packed::read_packed;
use crate::plain::read_faces;
use drc_base::{Fault, Kind, MAX_FACES, MAX_POINTS, Refusal, Sequence};
use drc_bits::Cursor;
use std::alloc::Global;

/// The faces of a sequential mesh, each three indices below its number of points.
#[derive(Debug, Drop)]
pub struct SeqRead {
    /// The faces, at most `MAX_FACES`.
    pub faces: Sequence<[u32; 3]>,
    /// The number of points, at most `MAX_POINTS`.
    pub points: u32,
}

/// The two numbers and the method at the opening of the section.
#[derive(Clone, Copy, Debug, PartialEq, Eq)]
pub struct Opening {
    /// The number of faces, at most `MAX_FACES`.
    pub faces: u32,
    /// The number of points, at most `MAX_POINTS`.
    pub points: u32,
    /// How indices are coded: 0 packed, 1 plain.
    pub method: u8,
}

/// Reads the connectivity of a sequential mesh, or its first fault at its place: `FaceLimit`,
/// `PointLimit`, `IndexMethod`, `IndexRange`, `Short` or `Long` of a number that isn't whole, and those
/// of a symbol block where the indices are packed. Such a block is read whole first, and an index in it
/// that isn't below the number of points is `IndexRange` where the block begins. The faults of the two
/// numbers and of the method come before out of memory. After a refusal the cursor is where it was.
#[tactic(auto, unfolding(crate::specs::Indices::indices_at))]
pub fn read_indices(alloc: Global, c: &mut Cursor<'_>) -> Result<SeqRead, Refusal>
    ensures indices { Gives (λ r. r) (indices_at profile c.old) c.new result }
    ensures early { (f : AnyFault) → indices_opening_at profile c.old ≡ Err f → result ≡ Err (refusal.Fault f) }
    ensures unchanged { OnErr result (c.new ≡ c.old) }
{
    let mut ahead = c.copy();
    let opening = read_opening(&mut ahead)?;
    let faces = read_behind(alloc, &mut ahead, opening)?;
    *c = ahead;
    Ok(SeqRead {
        faces: Sequence::from_vec(faces),
        points: opening.points,
    })
}

/// Reads the faces behind the opening of the section.
fn read_behind(
    alloc: Global,
    c: &mut Cursor<'_>,
    opening: Opening,
) -> Result<Vec<[u32; 3]>, Refusal>
    requires few_faces { opening.faces ≤ MAX_FACES }
    requires few_points { opening.points ≤ MAX_POINTS }
    ensures { Gives (λ v. v.items) (faces_at opening c.old) c.new result }
{
    if opening.method == PACKED {
        return read_packed(alloc, c, opening.faces, opening.points);
    }
    read_faces(alloc, c, opening.faces, opening.points)
}

/// Reads the opening of the section.
#[tactic(auto, unfolding(crate::specs::Indices::indices_opening_at))]
fn read_opening(c: &mut Cursor<'_>) -> Result<Opening, Fault>
    ensures opening { Reads (λ o. o) (indices_opening_at profile c.old) c.new result }
    ensures faces { IfOk result (λ o. o.faces ≤ MAX_FACES) }
    ensures points { IfOk result (λ o. o.points ≤ MAX_POINTS) }
{
    let faces = read_count(c, MAX_FACES, Kind::FaceLimit)?;
    let points = read_count(c, MAX_POINTS, Kind::PointLimit)?;
    let method = read_method(c)?;
    Ok(Opening {
        faces,
        points,
        method,
    })
}

/// Reads a number that is at most `most`, else a fault of this kind.
fn read_count(c: &mut Cursor<'_>, most: u32, kind: Kind) -> Result<u32, Fault>
    ensures count { Reads (λ n. n) (must kind (λ n. nat_le n most) var32_at c.old) c.new result }
    ensures bound { IfOk result (λ n. n ≤ most) }
{
    let fault = c.fault(kind);
    let count = c.var32()?;
    if count > most {
        return Err(fault);
    }
    Ok(count)
}

/// Reads the method of the indices.
fn read_method(c: &mut Cursor<'_>) -> Result<u8, Fault>
    ensures { Reads (λ n. n) (method_at c.old) c.new result }
{
    let unknown = c.fault(Kind::IndexMethod);
    let method = c.get_u8()?;
    if method > PLAIN {
        return Err(unknown);
    }
    Ok(method)
}
