//! Writing indices that are coded each by itself.

ghost use Rattle.std.specs.Prelude.{◌≡◌, ◌≤◌, ◌<◌, ◌+◌, ◌*◌, ◌++◌, length, IfOk, All, vec_len, vec_capacity};
ghost use Rattle.std.specs.List.{flat_map};
ghost use Rattle.drc_bits.specs.Bits.{low_bytes};
ghost use Rattle.drc_bits.specs.Varint.{spelling};
ghost use Rattle.seq_section.specs.Indices.{index_bytes, face_bytes, IsFaceBelow};

use drc_base::{MAX_FACES, MAX_POINTS, Memory};

/// The faces, each index by itself, behind these bytes.
pub fn put_plain(front: Vec<u8>, faces: &[[u32; 3]], points: u32) -> Result<Vec<u8>, Memory>
    requires few_faces { length faces.now ≤ MAX_FACES }
    requires few_points { points ≤ MAX_POINTS }
    requires below { All (IsFaceBelow points) faces.now }
    ensures { IfOk result (λ v. v.items ≡ front.items ++ flat_map (face_bytes points) faces.now) }
{
    let mut out = front;
    out.reserve(12 * faces.len())?;
    for face in faces {
        put_face(&mut out, *face, points);
    }
    Ok(out)
}

/// Appends the three indices of a face, where there is room.
#[inline(always)]
fn put_face(out: &mut Vec<u8>, face: [u32; 3], points: u32)
    requires few_points { points ≤ MAX_POINTS }
    requires below { IsFaceBelow points face }
    requires room { vec_len out.old + 12 ≤ vec_capacity out.old }
    ensures bytes { out.new.items ≡ out.old.items ++ face_bytes points face }
    ensures len { vec_len out.new ≤ vec_len out.old + 12 }
    ensures capacity { vec_capacity out.new ≡ vec_capacity out.old }
{
    let [first, second, third] = face;
    put_index(out, first, points);
    put_index(out, second, points);
    put_index(out, third, points);
}

/// Appends an index in the width that indices below `points` have, where there is room.
#[inline(always)]
fn put_index(out: &mut Vec<u8>, index: u32, points: u32)
    requires few_points { points ≤ MAX_POINTS }
    requires below { index < points }
    requires room { vec_len out.old + 4 ≤ vec_capacity out.old }
    ensures bytes { out.new.items ≡ out.old.items ++ index_bytes points index }
    ensures len { vec_len out.new ≤ vec_len out.old + 4 }
    ensures capacity { vec_capacity out.new ≡ vec_capacity out.old }
{
    if points < 0x100 {
        out.push_reserved(index as u8);
    } else if points < 0x1_0000 {
        out.push_reserved((index % 256) as u8);
        out.push_reserved((index / 256) as u8);
    } else if points < 0x20_0000 {
        put_varint(out, index);
    } else {
        put_word(out, index);
    }
}

/// Appends a number of four bytes, where there is room.
#[inline(always)]
fn put_word(out: &mut Vec<u8>, n: u32)
    requires room { vec_len out.old + 4 ≤ vec_capacity out.old }
    ensures bytes { out.new.items ≡ out.old.items ++ low_bytes 4 n }
    ensures len { vec_len out.new ≤ vec_len out.old + 4 }
    ensures capacity { vec_capacity out.new ≡ vec_capacity out.old }
{
    out.push_reserved((n % 256) as u8);
    out.push_reserved((n / 256 % 256) as u8);
    out.push_reserved((n / 256 / 256 % 256) as u8);
    out.push_reserved((n / 256 / 256 / 256 % 256) as u8);
}

/// Appends a varint of at most three bytes, where there is room.
#[tactic(auto, using(crate::proofs::Varints::one_byte))]
#[inline(always)]
fn put_varint(out: &mut Vec<u8>, n: u32)
    requires short { n < 2097152 }
    requires room { vec_len out.old + 3 ≤ vec_capacity out.old }
    ensures bytes { out.new.items ≡ out.old.items ++ spelling 5 n }
    ensures len { vec_len out.new ≤ vec_len out.old + 3 }
    ensures capacity { vec_capacity out.new ≡ vec_capacity out.old }
{
    if n < 0x80 {
        out.push_reserved(n as u8);
        return;
    }
    out.push_reserved((n % 128 + 128) as u8);
    if n < 0x4000 {
        out.push_reserved((n / 128) as u8);
        return;
    }
    out.push_reserved((n / 128 % 128 + 128) as u8);
    out.push_reserved((n / 128 / 128) as u8);
}
