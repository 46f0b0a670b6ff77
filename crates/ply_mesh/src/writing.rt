//! The lines of points and faces, put to a sink by way of a chunk.

ghost use Rattle.std.specs.Prelude.{◌≡◌, ◌+◌, ◌<◌, ◌≤◌, ◌++◌, ◌∷◌, [], length, map, take, IfOk};
ghost use Rattle.std.specs.Fmt.{signed_decimal, decimal};
ghost use Rattle.drc_base.specs.Counters.{HasCause};
ghost use Rattle.ply_mesh.specs.Text.{line_text, text_of, point_lines, face_line, face_lines};
ghost use Rattle.ply_mesh.specs.Printing.{body_lines, Prints};

use crate::points::Points;
use decimal_text::{ROOM_BYTES, put_signed, put_unsigned};
use drc_base::{Failed, Sink, write_all};
use mesh_model::{CornerMesh, Geometry};

/// The bytes of a chunk, which a sink gets in one piece when it is nearly full.
pub(crate) const PIECE_BYTES: usize = 65536;

/// Writes the line of a point from `at` on, and answers the place behind it.
#[inline(always)]
#[tactic(auto, using(crate::proofs::RowTexts::row_end))]
fn put_row(row: &[i32], buf: &mut [u8], at: usize) -> usize
    requires some { 0 < length row.now }
    requires most { length row.now ≤ 128 }
    requires room { at + ROOM_BYTES ≤ length buf.old }
    ensures text { take result buf.new ≡ take at buf.old ++ line_text (map signed_decimal row.now) }
    ensures few { result ≤ at + ROOM_BYTES }
{
    let last = row.len() - 1;
    let mut end = at;
    for j in 0..last {
        end = put_signed(row[j], b' ', buf, end);
    }
    put_signed(row[last], b'\n', buf, end)
}

/// Writes the count of a face and a space from `at` on.
#[inline(always)]
fn put_count(buf: &mut [u8], at: usize)
    requires { at + 2 ≤ length buf.old }
    ensures { take (at + 2) buf.new ≡ take at buf.old ++ 51 ∷ 32 ∷ [] }
{
    buf[at] = b'3';
    buf[at + 1] = b' ';
}

/// Writes the line of a face from `at` on, and answers the place behind it.
#[inline(always)]
fn put_face(a: u32, b: u32, c: u32, buf: &mut [u8], at: usize) -> usize
    requires { at + ROOM_BYTES ≤ length buf.old }
    ensures text { take result buf.new ≡ take at buf.old ++ line_text (face_line (a ∷ b ∷ c ∷ [])) }
    ensures few { result ≤ at + ROOM_BYTES }
{
    put_count(buf, at);
    let end = put_unsigned(a, b' ', buf, at + 2);
    let end = put_unsigned(b, b' ', buf, end);
    put_unsigned(c, b'\n', buf, end)
}

/// The fill of a chunk that has room for a line: as it was, or 0 after what it holds was written.
#[inline(always)]
fn with_room<O: Sink>(out: &mut O, chunk: &[u8], held: usize) -> Result<usize, Failed>
    requires long { length chunk.now ≡ PIECE_BYTES }
    requires held { held ≤ PIECE_BYTES }
    ensures text { Prints (O.held out.old) (O.held out.new) (take held chunk.now) chunk.now result }
    ensures room { IfOk result (λ now. now + ROOM_BYTES ≤ PIECE_BYTES) }
    ensures cause { HasCause (O.faults out.old) (O.faults out.new) result }
{
    if held + ROOM_BYTES <= PIECE_BYTES {
        return Ok(held);
    }
    write_all(out, &chunk[..held])?;
    Ok(0)
}

/// Puts the lines of points behind what the chunk holds, and answers how much it holds then.
fn put_points<O: Sink, P: Points>(
    out: &mut O,
    points: &P,
    chunk: &mut [u8],
    before: usize,
) -> Result<usize, Failed>
    requires long { length chunk.old ≡ PIECE_BYTES }
    requires before { before ≤ PIECE_BYTES }
    ensures text { Prints (O.held out.old) (O.held out.new)
        (take before chunk.old ++ text_of (point_lines (P.rows points.now))) chunk.new result }
    ensures held { IfOk result (λ now. now ≤ PIECE_BYTES) }
    ensures cause { HasCause (O.faults out.old) (O.faults out.new) result }
{
    let mut held = before;
    for i in 0..points.count() {
        let from = with_room(out, chunk, held)?;
        held = put_row(points.row(i), chunk, from);
    }
    Ok(held)
}

/// Puts the faces of a mesh behind what the chunk holds, and answers how much it holds then.
fn put_faces<O: Sink>(
    out: &mut O,
    mesh: &CornerMesh,
    chunk: &mut [u8],
    before: usize,
) -> Result<usize, Failed>
    requires long { length chunk.old ≡ PIECE_BYTES }
    requires before { before ≤ PIECE_BYTES }
    ensures text { Prints (O.held out.old) (O.held out.new)
        (take before chunk.old ++ text_of (face_lines mesh.now.faces)) chunk.new result }
    ensures held { IfOk result (λ now. now ≤ PIECE_BYTES) }
    ensures cause { HasCause (O.faults out.old) (O.faults out.new) result }
{
    let mut held = before;
    for f in 0..mesh.face_count() {
        let from = with_room(out, chunk, held)?;
        let face = mesh.face(f);
        held = put_face(face[0], face[1], face[2], chunk, from);
    }
    Ok(held)
}

/// Puts all behind the header of a text behind what the chunk holds, and answers how much it holds then.
pub(crate) fn put_body<O: Sink>(
    out: &mut O,
    g: &Geometry,
    chunk: &mut [u8],
    before: usize,
) -> Result<usize, Failed>
    requires long { length chunk.old ≡ PIECE_BYTES }
    requires before { before ≤ PIECE_BYTES }
    ensures text { Prints (O.held out.old) (O.held out.new)
        (take before chunk.old ++ text_of (body_lines g.now)) chunk.new result }
    ensures held { IfOk result (λ now. now ≤ PIECE_BYTES) }
    ensures cause { HasCause (O.faults out.old) (O.faults out.new) result }
{
    match g {
        Geometry::Mesh(mesh) => {
            let held = put_points(out, mesh, chunk, before)?;
            put_faces(out, mesh, chunk, held)
        }
        Geometry::Cloud(cloud) => put_points(out, cloud, chunk, before),
    }
}
