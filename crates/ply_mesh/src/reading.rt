//! Geometry from PLY text.

ghost use Rattle.std.specs.Prelude.{◌≡◌, ◌+◌, ◌<◌, ◌-◌, ◌^◌, ◌≤◌, Err, None, Some, length, map, IfOk, MatchResult};
ghost use Rattle.drc_base.specs.declared.faults.Fault.{Fault as AnyFault};
ghost use Rattle.drc_base.specs.declared.faults.Refusal.TheVariants as refusal;
ghost use Rattle.drc_base.specs.Refusals.{Answers, Refuses};
ghost use Rattle.attr_heads.specs.Head.{heads_fault, row_bounds};
ghost use Rattle.ply_text.specs.DeclaredLines.{declared_of_text_in};
ghost use Rattle.ply_text.specs.Tokens.{tokens_of};
ghost use Rattle.ply_text.specs.IsHeader.{IsHeader};
ghost use Rattle.ply_mesh.specs.Body.{row_read, items_from, AreRowsRead};
ghost use Rattle.ply_mesh.specs.Read.{body_of, ply_read_in};

use crate::bodies::{read_end, read_faces, read_rows, skip_lines};
use crate::columns::row_bounds;
use drc_base::{Profile, Refusal};
use mesh_model::{Cloud, CornerMesh, Geometry};
use ply_text::{Header, Lines, read_header};
use std::alloc::Global;

/// The least bytes of a text that a number takes, with what parts it from the next.
const NUMBER_BYTES: usize = 2;

/// The least bytes of a text that a face takes: its line, with the LF.
const FACE_BYTES: usize = 8;

/// Room for `width` items of each of `count` lines, but for no more than `most`.
fn room_of(count: u32, width: usize, most: usize) -> usize
    ensures { result ≤ most }
{
    if width == 0 || count as usize > most / width {
        most
    } else {
        count as usize * width
    }
}

/// The numbers of the points of a body in a text of `size` bytes, row after row.
fn read_points(
    alloc: Global,
    header: &Header,
    lines: &mut Lines<'_>,
    size: usize,
) -> Result<Vec<i32>, Refusal>
    requires heads { heads_fault header.now.heads ≡ None }
    requires room { header.now.body_line + length lines.old < 2 ^ 63 + 8 }
    ensures fewer { length lines.new ≤ length lines.old }
    ensures rows { let due = items_from (row_read (row_bounds header.now.heads)) header.now.vertices header.now.body_line (map tokens_of lines.old) in
        MatchResult result (λ cells. AreRowsRead due cells.items (map tokens_of lines.new)) (λ e. Refuses due e) }
{
    let columns = row_bounds(alloc, header.heads.as_slice())?;
    let columns = columns.as_slice();
    let room = room_of(header.vertices, columns.len(), size / NUMBER_BYTES);
    read_rows(
        alloc,
        lines,
        columns,
        header.vertices,
        header.body_line,
        room,
    )
}

/// The cloud of a body.
fn read_cloud(
    alloc: Global,
    header: Header,
    lines: &mut Lines<'_>,
    size: usize,
) -> Result<Geometry, Refusal>
    requires header { IsHeader header }
    requires faces { header.faces ≡ None }
    requires room { header.body_line + length lines.old < 2 ^ 63 + 8 }
    ensures { Answers (λ g. g) (body_of header (map tokens_of lines.old)) result }
{
    let cells = read_points(alloc, &header, lines, size)?;
    read_end(lines, header.body_line + header.vertices as u64)?;
    let cloud = Cloud::new(header.heads.into_vec(), cells)?;
    Ok(Geometry::Cloud(cloud))
}

/// The mesh of a body with `count` faces.
fn read_mesh(
    alloc: Global,
    header: Header,
    count: u32,
    lines: &mut Lines<'_>,
    size: usize,
) -> Result<Geometry, Refusal>
    requires header { IsHeader header }
    requires faces { header.faces ≡ Some count }
    requires room { header.body_line + length lines.old < 2 ^ 63 + 8 }
    ensures { Answers (λ g. g) (body_of header (map tokens_of lines.old)) result }
{
    let cells = read_points(alloc, &header, lines, size)?;
    let at = header.body_line + header.vertices as u64;
    let list = header.list.unwrap_or((0, 0));
    let room = room_of(count, 1, size / FACE_BYTES);
    let faces = read_faces(alloc, lines, list, header.vertices, count, at, room)?;
    read_end(lines, at + count as u64)?;
    let mesh = CornerMesh::new(header.heads.into_vec(), cells, faces)?;
    Ok(Geometry::Mesh(mesh))
}

/// The geometry of a body.
fn read_body(
    alloc: Global,
    header: Header,
    lines: &mut Lines<'_>,
    size: usize,
) -> Result<Geometry, Refusal>
    requires header { IsHeader header }
    requires room { header.body_line + length lines.old < 2 ^ 63 + 8 }
    ensures { Answers (λ g. g) (body_of header (map tokens_of lines.old)) result }
{
    match header.faces {
        None => read_cloud(alloc, header, lines, size),
        Some(count) => read_mesh(alloc, header, count, lines, size),
    }
}

/// The geometry of a PLY text, or its first fault with its line: the faults of the header, then PlyRow
/// and PlyNumber at the lines of points, PlyRow, PlyNumber, PlyFace and PlyIndex at the lines of
/// faces, PlyShort where the text ends too early, and PlyRest where more follows than lines without
/// tokens (PLY 1.0, in this project's profile); the line of a square is read where the profile has octahedral
/// attributes, and else says nothing. A fault of a line before `end_header` and before the first line that says more of an
/// attribute comes before out of memory.
pub fn read_ply(alloc: Global, profile: Profile, bytes: &[u8]) -> Result<Geometry, Refusal>
    ensures geometry { Answers (λ g. g) (ply_read_in profile.number bytes.now) result }
    ensures early { (f : AnyFault) → declared_of_text_in profile.number bytes.now ≡ Err f → result ≡ Err (refusal.Fault f) }
{
    let header = read_header(alloc, profile, bytes)?;
    let mut lines = Lines::new(bytes);
    skip_lines(&mut lines, header.body_line - 1);
    read_body(alloc, header, &mut lines, bytes.len())
}
