//! The lines after a header.

ghost use Rattle.std.specs.Prelude.{◌≡◌, ◌+◌, ◌*◌, ◌<◌, ◌≤◌, ◌^◌, Ok, length, map, drop, MatchResult};
ghost use Rattle.drc_base.specs.Refusals.{Answers, Refuses};
ghost use Rattle.mesh_model.specs.declared.geometries.Geometry.{Geometry as GeometryValue};
ghost use Rattle.ply_text.specs.Tokens.{tokens_of};
ghost use Rattle.attr_heads.specs.Bounds.{type_bounds};
ghost use Rattle.ply_mesh.specs.Ahead.{TakesRow, TakesFace};
ghost use Rattle.ply_mesh.specs.Body.{row_read, face_of, items_from, ends, AreRowsRead};

use crate::face_lines::read_face;
use crate::faces_ahead::face_ahead;
use crate::rows::read_row;
use crate::rows_ahead::row_ahead;
use attr_heads::Bounds;
use drc_base::{Fault, Kind, Refusal};
use ply_text::{Lines, is_at_end};
use std::alloc::Global;

/// Takes up to `count` lines off.
pub(crate) fn skip_lines(lines: &mut Lines<'_>, count: u64)
    ensures { lines.new ≡ drop count lines.old }
{
    for _ in 0..count {
        let _line = lines.next();
    }
}

/// Takes the first line off, and appends the numbers of the point that it is. PlyShort where no line is left,
/// else as `read_row`.
#[tactic(auto, using(crate::proofs::ItemSteps::shorter))]
fn take_row<'a>(
    alloc: Global,
    lines: &mut Lines<'a>,
    columns: &[Bounds],
    at: u64,
    out: &mut Vec<i32>,
) -> Result<(), Refusal>
    ensures fewer { length lines.new ≤ length lines.old }
    ensures row { MatchResult result
        (λ _. TakesRow columns.now at lines.old lines.new out.old.items out.new.items)
        (λ e. Refuses (items_from (row_read columns.now) 1 at (map tokens_of lines.old)) e) }
{
    let text = lines.rest();
    if let Some(end) = row_ahead(columns, text, out)? {
        *lines = Lines::new(&text[end + 1..]);
        return Ok(());
    }
    let Some(line) = lines.next() else {
        return Err(Refusal::Fault(Fault::new(Kind::PlyShort, at)));
    };
    read_row(alloc, columns, at, line, out)
}

/// The numbers of `count` lines of points from line number `at` on, row after row, in room for `room`
/// of them at first.
pub(crate) fn read_rows(
    alloc: Global,
    lines: &mut Lines<'_>,
    columns: &[Bounds],
    count: u32,
    at: u64,
    room: usize,
) -> Result<Vec<i32>, Refusal>
    requires { at + count < 2 ^ 64 }
    ensures fewer { length lines.new ≤ length lines.old }
    ensures rows { MatchResult result
        (λ cells. AreRowsRead (items_from (row_read columns.now) count at (map tokens_of lines.old)) cells.items (map tokens_of lines.new))
        (λ e. Refuses (items_from (row_read columns.now) count at (map tokens_of lines.old)) e) }
{
    let mut cells = Vec::with_capacity(alloc, room)?;
    for i in 0..count {
        let number = at + i as u64;
        take_row(alloc, lines, columns, number, &mut cells)?;
    }
    Ok(cells)
}

/// Takes the first line off, and answers the face that it is; `counts` and `indices` are the bounds of the
/// types of `list`. PlyShort where no line is left, else as `read_face`.
#[tactic(auto, using(crate::proofs::ItemSteps::shorter))]
fn take_face<'a>(
    alloc: Global,
    lines: &mut Lines<'a>,
    list: (u8, u8),
    counts: Bounds,
    indices: Bounds,
    points: u32,
    at: u64,
) -> Result<[u32; 3], Refusal>
    requires counts { counts ≡ type_bounds list.0 }
    requires indices { indices ≡ type_bounds list.1 }
    ensures fewer { length lines.new ≤ length lines.old }
    ensures face { MatchResult result
        (λ face. TakesFace list points at lines.old lines.new face)
        (λ e. Refuses (items_from (face_of list points) 1 at (map tokens_of lines.old)) e) }
{
    let text = lines.rest();
    if let Some(found) = face_ahead(list, counts, indices, points, text) {
        *lines = Lines::new(&text[found.1 + 1..]);
        return Ok(found.0);
    }
    let Some(line) = lines.next() else {
        return Err(Refusal::Fault(Fault::new(Kind::PlyShort, at)));
    };
    read_face(alloc, list, points, at, line)
}

/// The faces of `count` lines from line number `at` on.
pub(crate) fn read_faces(
    alloc: Global,
    lines: &mut Lines<'_>,
    list: (u8, u8),
    points: u32,
    count: u32,
    at: u64,
    room: usize,
) -> Result<Vec<[u32; 3]>, Refusal>
    requires { at + count < 2 ^ 64 }
    ensures fewer { length lines.new ≤ length lines.old }
    ensures faces { MatchResult result
        (λ faces. items_from (face_of list points) count at (map tokens_of lines.old) ≡ Ok (faces.items, map tokens_of lines.new))
        (λ e. Refuses (items_from (face_of list points) count at (map tokens_of lines.old)) e) }
{
    let counts = Bounds::of_type(list.0);
    let indices = Bounds::of_type(list.1);
    let mut faces = Vec::with_capacity(alloc, room)?;
    for i in 0..count {
        let number = at + i as u64;
        let face = take_face(alloc, lines, list, counts, indices, points, number)?;
        faces.push(face)?;
    }
    Ok(faces)
}

/// PlyRest at the first line with a token.
pub(crate) fn read_end(lines: &mut Lines<'_>, at: u64) -> Result<(), Refusal>
    requires { at + length lines.old < 2 ^ 64 }
    ensures { (g : GeometryValue) → Answers (λ _. g) (ends g at (map tokens_of lines.old)) result }
{
    let mut number = at;
    while let Some(line) = lines.next() {
        if !is_at_end(line, 0) {
            return Err(Refusal::Fault(Fault::new(Kind::PlyRest, number)));
        }
        number += 1;
    }
    Ok(())
}
