//! The text of a renumbering.

ghost use Rattle.std.specs.Prelude.{◌≡◌, ◌+◌, ◌≤◌, ◌++◌, codes, length, take, flat_map, IfOk, OnOk};
ghost use Rattle.mesh_model.specs.MapText.{map_text_of, map_words, row_line};

use crate::geometries::Geometry;
use crate::renumberings::Renumber;
use decimal_text::{CHUNK_BYTES, ROOM_BYTES, append_number, flushed, put_unsigned, with_room};
use drc_base::Memory;
use std::alloc::Global;

/// Writes the line of one row from `at` on, and answers the place behind it.
#[inline(always)]
#[tactic(auto, using(crate::proofs::MapTexts::row_text))]
fn put_row(row: (u32, u8), buf: &mut [u8], at: usize) -> usize
    requires { at + ROOM_BYTES ≤ length buf.old }
    ensures text { take result buf.new ≡ take at buf.old ++ row_line row }
    ensures few { result ≤ at + ROOM_BYTES }
{
    let end = put_unsigned(row.0, b' ', buf, at);
    put_unsigned(row.1 as u32, b'\n', buf, end)
}

/// Appends the lines of all rows, which go through a chunk.
fn put_lines(out: &mut Vec<u8>, chunk: &mut [u8], rows: &[(u32, u8)]) -> Result<(), Memory>
    requires { length chunk.old ≡ CHUNK_BYTES }
    ensures { OnOk result (out.new.items ≡ out.old.items ++ flat_map row_line rows.now) }
{
    let mut held = 0;
    for row in rows {
        let from = with_room(out, chunk, held)?;
        held = put_row(*row, chunk, from);
    }
    flushed(out, chunk, held)
}

/// Appends the lines of all rows.
fn put_rows(out: &mut Vec<u8>, rows: &[(u32, u8)]) -> Result<(), Memory>
    ensures { OnOk result (out.new.items ≡ out.old.items ++ flat_map row_line rows.now) }
{
    let mut chunk = [0u8; CHUNK_BYTES];
    put_lines(out, &mut chunk, rows)
}

/// The words that begin the text.
fn words(g: &Geometry) -> &'static [u8]
    ensures { result.now ≡ map_words g.now }
{
    match g {
        Geometry::Mesh(_) => b"map mesh ",
        Geometry::Cloud(_) => b"map cloud ",
    }
}

/// The text of a renumbering of `g` by `c`: a line `map mesh <n>` or `map cloud <n>` with the number
/// of rows, then one line `<face> <turn>` for each row (of clouds, `<point> 0`), each with LF.
pub fn map_text(alloc: Global, g: &Geometry, c: &Renumber) -> Result<Vec<u8>, Memory>
    ensures { IfOk result (λ text. text.items ≡ map_text_of g.now c.now.rows) }
{
    let rows = c.rows.as_slice();
    let mut out = Vec::new(alloc);
    out.extend_from_slice(words(g))?;
    append_number(&mut out, rows.len() as u64)?;
    out.extend_from_slice(b"\n")?;
    put_rows(&mut out, rows)?;
    Ok(out)
}
