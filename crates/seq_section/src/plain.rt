//! Reading indices that are coded each by itself.

ghost use Rattle.drc_bits.specs.Reading.{Reads, Gives, many_at};
ghost use Rattle.seq_section.specs.Indices.{index_width, number_of_width, index_at, face_at};

use crate::quick::quick_face;
use drc_base::{Fault, Kind, Refusal};
use drc_bits::Cursor;
use std::alloc::Global;

/// Reads so many faces of plain indices below `points`.
pub fn read_faces(
    alloc: Global,
    c: &mut Cursor<'_>,
    faces: u32,
    points: u32,
) -> Result<Vec<[u32; 3]>, Refusal>
    ensures { Gives (λ v. v.items) (many_at (face_at points) faces c.old) c.new result }
{
    let most = c.rest().len() / 3;
    let mut read = Vec::with_capacity(alloc, most.min(faces as usize))?;
    for _ in 0..faces {
        let face = next_face(c, points)?;
        read.push(face)?;
    }
    Ok(read)
}

/// Reads a face: in one step where it is seen in its bytes, else index by index.
#[inline(always)]
fn next_face(c: &mut Cursor<'_>, points: u32) -> Result<[u32; 3], Fault>
    ensures { Reads (λ f. f) (face_at points c.old) c.new result }
{
    match quick_face(c.rest(), points) {
        Some(quick) => {
            c.skip(quick.size);
            Ok([quick.first, quick.second, quick.third])
        }
        None => read_face(c, points),
    }
}

/// Reads a face.
#[tactic(auto, unfolding(crate::specs::Indices::face_at))]
fn read_face(c: &mut Cursor<'_>, points: u32) -> Result<[u32; 3], Fault>
    ensures { Reads (λ f. f) (face_at points c.old) c.new result }
{
    let first = read_index(c, points)?;
    let second = read_index(c, points)?;
    let third = read_index(c, points)?;
    Ok([first, second, third])
}

/// Reads an index below `points`.
fn read_index(c: &mut Cursor<'_>, points: u32) -> Result<u32, Fault>
    ensures { Reads (λ i. i) (index_at points c.old) c.new result }
{
    let fault = c.fault(Kind::IndexRange);
    let index = read_number(c, points)?;
    if index >= points {
        return Err(fault);
    }
    Ok(index)
}

/// Reads a number of the width that indices below `points` have.
fn read_number(c: &mut Cursor<'_>, points: u32) -> Result<u32, Fault>
    ensures { Reads (λ i. i) (number_of_width (index_width points) c.old) c.new result }
{
    if points < 0x100 {
        return Ok(c.get_u8()? as u32);
    }
    if points < 0x1_0000 {
        return Ok(c.get_u16()? as u32);
    }
    if points < 0x20_0000 {
        return c.var32();
    }
    c.get_u32()
}
