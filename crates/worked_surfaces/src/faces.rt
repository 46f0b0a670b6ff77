//! Surfaces by their faces, each the numbers of its three points.

ghost use Rattle.std.specs.Prelude.{◌<◌};

use drc_base::Memory;
use std::alloc::Global;

/// A tetrahedron, of four points.
pub const TETRAHEDRON: [[u32; 3]; 4] = [[0, 2, 1], [0, 1, 3], [1, 2, 3], [0, 3, 2]];

/// A torus of seven points.
pub const TORUS: [[u32; 3]; 14] = [
    [0, 1, 3],
    [1, 2, 4],
    [2, 3, 5],
    [3, 4, 6],
    [4, 5, 0],
    [5, 6, 1],
    [6, 0, 2],
    [0, 3, 2],
    [1, 4, 3],
    [2, 5, 4],
    [3, 6, 5],
    [4, 0, 6],
    [5, 1, 0],
    [6, 2, 1],
];

/// A ring of six points with a hole.
pub const RING: [[u32; 3]; 6] = [
    [0, 1, 3],
    [1, 4, 3],
    [1, 2, 4],
    [2, 5, 4],
    [2, 0, 5],
    [0, 3, 5],
];

/// Three faces on one edge, of five points: the third finds no free side.
pub const BOOK: [[u32; 3]; 3] = [[0, 1, 2], [1, 0, 3], [1, 0, 4]];

/// A square of two faces, of four points.
pub const SQUARE: [[u32; 3]; 2] = [[0, 1, 2], [2, 1, 3]];

/// Two mirrored faces of the same three points, which are never joined.
pub const MIRRORED: [[u32; 3]; 2] = [[0, 1, 2], [0, 2, 1]];

/// A face of three points that stands twice.
pub const TWICE: [[u32; 3]; 2] = [[0, 1, 2], [0, 1, 2]];

/// The torus, and another one of seven points more. Fails only when out of memory.
pub fn two_tori(alloc: Global) -> Result<Vec<[u32; 3]>, Memory> {
    let mut faces = Vec::new(alloc);
    for shift in [0u32, 7] {
        for [a, b, c] in TORUS {
            faces.push([
                a.wrapping_add(shift),
                b.wrapping_add(shift),
                c.wrapping_add(shift),
            ])?;
        }
    }
    Ok(faces)
}

/// The point in column x and row y of a grid; columns and rows close round.
fn point(columns: u32, rows: u32, x: u32, y: u32) -> u32
    requires columns { 0 < columns }
    requires rows { 0 < rows }
{
    (y % rows).wrapping_mul(columns).wrapping_add(x % columns)
}

/// The faces of cells of a grid of points, row after row, two for each cell, without those of the cells that
/// are holes. `points` and `cells` are how many columns and rows there are. Fails only when out of memory.
pub fn grid(
    alloc: Global,
    points: (u8, u8),
    cells: (u8, u8),
    holes: &[(u8, u8)],
) -> Result<Vec<[u32; 3]>, Memory>
    requires columns { 0 < points.0 }
    requires rows { 0 < points.1 }
{
    let (columns, rows) = (u32::from(points.0), u32::from(points.1));
    let mut faces = Vec::new(alloc);
    for y in 0..cells.1 {
        for x in 0..cells.0 {
            if holes.iter().any(|hole| *hole == (x, y)) {
                continue;
            }
            let (left, top) = (u32::from(x), u32::from(y));
            let first = point(columns, rows, left, top);
            let last = point(columns, rows, left + 1, top + 1);
            faces.push([first, point(columns, rows, left + 1, top), last])?;
            faces.push([first, last, point(columns, rows, left, top + 1)])?;
        }
    }
    Ok(faces)
}

/// A closed fan of so many faces, all round point 0. Fails only when out of memory.
pub fn fan(alloc: Global, count: u8) -> Result<Vec<[u32; 3]>, Memory> {
    let around = u32::from(count);
    let mut faces = Vec::new(alloc);
    for i in 0..around {
        let next = if i + 1 == around { 0 } else { i + 1 };
        faces.push([0, i + 1, next + 1])?;
    }
    Ok(faces)
}
