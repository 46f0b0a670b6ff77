//! Streams and maps as C has them.

ghost use Rattle.std.specs.Prelude.{◌≡◌, map, IfOk};
ghost use Rattle.drc_c.specs.Streams.{row_told, row_meant};

use drc_base::{Memory, Sequence};
use mesh_model::{MapRead, Renumber};
use std::alloc::Global;

/// A row of the map of an encoding: the face that a face of the stream is and its turn, or the point and 0.
#[repr(C)]
#[derive(Clone, Copy, Debug)]
pub struct DrcRow {
    /// The number of the face or point.
    pub number: u32,
    /// How far the face is turned, 0 to 2: corner k of the stream's face is corner k + turn, modulo 3.
    pub turn: u32,
}

// As the header has it.
const _: () = prove!(size_of::<DrcRow>() == 8);

/// How much there is of a stream and its map.
#[repr(C)]
#[derive(Clone, Copy, Debug)]
pub struct DrcLengths {
    /// Bytes of the stream.
    pub bytes: usize,
    /// Rows of the map.
    pub rows: usize,
}

// As the header has it.
const _: () = prove!(size_of::<DrcLengths>() == 16);

/// An encoded stream and its map, which C frees.
#[repr(C)]
#[derive(Drop)]
pub struct DrcStream {
    /// How much there is of both.
    pub lengths: DrcLengths,
    /// The bytes of the stream.
    pub bytes: *mut u8,
    /// The rows of the map.
    pub rows: *mut DrcRow,
}

// As the header has it.
const _: () = prove!(size_of::<DrcStream>() == 32);

/// A row as C has it.
fn row_told(row: (u32, u8)) -> DrcRow
    ensures { result ≡ row_told row }
{
    DrcRow {
        number: row.0,
        turn: row.1 as u32,
    }
}

/// The rows of a map as C has them.
pub fn rows_told(alloc: Global, renumber: &Renumber) -> Result<Vec<DrcRow>, Memory>
    ensures { IfOk result (λ v. v.items ≡ map row_told renumber.now.rows) }
{
    let rows = renumber.rows.as_slice();
    let mut told = Vec::with_capacity(alloc, rows.len())?;
    for row in rows {
        told.push(row_told(*row))?;
    }
    Ok(told)
}

/// The row that a row of C means: turns above 255 are all alike, since none above 2 is one.
fn row_meant(row: DrcRow) -> (u32, u8)
    ensures { result ≡ row_meant row }
{
    (row.number, row.turn.min(255) as u8)
}

/// The rows that rows of C mean.
fn rows_meant(alloc: Global, told: &[DrcRow]) -> Result<Vec<(u32, u8)>, Memory>
    ensures { IfOk result (λ v. v.items ≡ map row_meant told.now) }
{
    let mut rows = Vec::with_capacity(alloc, told.len())?;
    for row in told {
        rows.push(row_meant(*row))?;
    }
    Ok(rows)
}

/// The map, of a cloud or of a mesh, that rows of C mean.
pub fn map_meant(alloc: Global, cloud: bool, told: &[DrcRow]) -> Result<MapRead, Memory>
    ensures kind { IfOk result (λ m. m.cloud ≡ cloud) }
    ensures rows { IfOk result (λ m. m.rows.rows ≡ map row_meant told.now) }
{
    let rows = rows_meant(alloc, told)?;
    Ok(MapRead {
        cloud,
        rows: Renumber {
            rows: Sequence::from_vec(rows),
        },
        end: 0,
    })
}
