//! Active sides with the vertices at their ends, in a plain list.

ghost use Rattle.std.specs.Prelude.{◌≡◌, ◌+◌, ◌*◌, ◌/◌, ◌%◌, ◌<◌, ◌≤◌, ◌==◌, not, [], ◌∷◌, ◌++◌, map, filter, find, length, slice_index_or, sum_by, cond, IfOk};
ghost use Rattle.std.specs.List.{list_any};
ghost use Rattle.drc_base.specs.declared.limits.TheConstants.{MAX_FACES as most_faces};
ghost use Rattle.corner_table.specs.Sides.{first, second, third, place_after, place_of};
ghost use Rattle.eb_machine.specs.Named.{renamed, renamed_triangle, new_row, no_triangle, corner, has_equal, first_with_equal};
ghost use Rattle.eb_rebuild.specs.Counted.{times_in};
ghost use Rattle.eb_rows.specs.Rowed.{row_listed};

use drc_base::Memory;
use std::alloc::{AllocError, Global};

/// An active side, by its number, and the vertices that it runs from and to.
#[derive(Debug, Clone, Copy)]
pub(crate) struct Row {
    pub(crate) side: u32,
    pub(crate) from: u32,
    pub(crate) to: u32,
}

/// The row of a side.
pub(crate) fn row_of(rows: &[Row], side: u32) -> Option<Row>
    ensures { result ≡ find (λ r. r.side == side) rows.now }
{
    rows.iter().copied().find(|r| r.side == side)
}

/// The row that ends at a vertex.
pub(crate) fn row_to(rows: &[Row], vertex: u32) -> Option<Row>
    ensures { result ≡ find (λ r. r.to == vertex) rows.now }
{
    rows.iter().copied().find(|r| r.to == vertex)
}

/// All rows.
pub(crate) fn all_rows(alloc: Global, rows: &[Row]) -> Result<Vec<Row>, AllocError>
    ensures { IfOk result (λ v. v.items ≡ rows.now) }
{
    rows.iter().copied().collect(alloc)
}

/// All rows but that of a side.
pub(crate) fn without(alloc: Global, rows: &[Row], side: u32) -> Result<Vec<Row>, AllocError>
    ensures { IfOk result (λ v. v.items ≡ filter (λ r. not (r.side == side)) rows.now) }
{
    rows.iter()
        .copied()
        .filter(|r| r.side != side)
        .collect(alloc)
}

/// A vertex once `from` has become `to`.
fn renamed(from: u32, to: u32, vertex: u32) -> u32
    ensures { result ≡ renamed from to vertex }
{
    if vertex == from { to } else { vertex }
}

/// A row after a renaming.
fn renamed_row(from: u32, to: u32, row: Row) -> Row
    ensures { result ≡ record { side = row.side; from = renamed from to row.from; to = renamed from to row.to } }
{
    Row {
        side: row.side,
        from: renamed(from, to, row.from),
        to: renamed(from, to, row.to),
    }
}

/// All rows after a renaming.
pub(crate) fn renamed_rows(
    alloc: Global,
    rows: &[Row],
    from: u32,
    to: u32,
) -> Result<Vec<Row>, AllocError>
    ensures { IfOk result (λ v. v.items ≡ map (λ r. record { side = r.side; from = renamed from to r.from; to = renamed from to r.to }) rows.now) }
{
    rows.iter()
        .map(|r| renamed_row(from, to, *r))
        .collect(alloc)
}

/// A triangle after a renaming.
pub(crate) fn triangle_renamed(from: u32, to: u32, t: (u32, u32, u32)) -> (u32, u32, u32)
    ensures { result ≡ renamed_triangle (renamed from to) t }
{
    (
        renamed(from, to, t.0),
        renamed(from, to, t.1),
        renamed(from, to, t.2),
    )
}

/// All triangles after a renaming.
pub(crate) fn renamed_triangles(
    alloc: Global,
    triangles: &[(u32, u32, u32)],
    from: u32,
    to: u32,
) -> Result<Vec<(u32, u32, u32)>, AllocError>
    ensures { IfOk result (λ v. v.items ≡ map (renamed_triangle (renamed from to)) triangles.now) }
{
    triangles
        .iter()
        .map(|t| triangle_renamed(from, to, *t))
        .collect(alloc)
}

/// The triangles, and one more.
pub(crate) fn with_triangle(
    alloc: Global,
    triangles: &[(u32, u32, u32)],
    t: (u32, u32, u32),
) -> Result<Vec<(u32, u32, u32)>, Memory>
    ensures { IfOk result (λ v. v.items ≡ triangles.now ++ (t ∷ [])) }
{
    let mut more: Vec<(u32, u32, u32)> = triangles.iter().copied().collect(alloc)?;
    more.push(t)?;
    Ok(more)
}

/// The rows, and one more.
pub(crate) fn with_row(rows: Vec<Row>, row: Row) -> Result<Vec<Row>, Memory>
    ensures { IfOk result (λ v. v.items ≡ rows.items ++ (row ∷ [])) }
{
    let mut more = rows;
    more.push(row)?;
    Ok(more)
}

/// Side 0 of a face whose corners have these names.
pub(crate) fn first_row(face: u32, t: (u32, u32, u32)) -> Row
    requires { face < most_faces }
    ensures { row_listed result ≡ new_row face t first }
{
    Row {
        side: 3 * face,
        from: t.1,
        to: t.2,
    }
}

/// Side 1 of a face.
pub(crate) fn second_row(face: u32, t: (u32, u32, u32)) -> Row
    requires { face < most_faces }
    ensures { row_listed result ≡ new_row face t second }
{
    Row {
        side: 3 * face + 1,
        from: t.2,
        to: t.0,
    }
}

/// Side 2 of a face.
pub(crate) fn third_row(face: u32, t: (u32, u32, u32)) -> Row
    requires { face < most_faces }
    ensures { row_listed result ≡ new_row face t third }
{
    Row {
        side: 3 * face + 2,
        from: t.0,
        to: t.1,
    }
}

/// Whether two corners of a triangle have one name.
fn has_equal(t: (u32, u32, u32)) -> bool
    ensures { result ≡ has_equal t }
{
    t.0 == t.1 || t.1 == t.2 || t.2 == t.0
}

/// A triangle by its face.
fn triangle_at(triangles: &[(u32, u32, u32)], face: u32) -> (u32, u32, u32)
    requires { face < length triangles.now }
    ensures { result ≡ slice_index_or triangles.now face no_triangle }
{
    triangles[face as usize]
}

/// The least of the first triangles with two equal names.
pub(crate) fn first_with_equal(triangles: &[(u32, u32, u32)], faces: u32) -> Option<u32>
    requires { faces ≤ length triangles.now }
    ensures { result ≡ first_with_equal triangles.now faces }
{
    for face in 0..faces {
        if has_equal(triangle_at(triangles, face)) {
            return Some(face);
        }
    }
    None
}

/// One where something holds, else none.
pub(crate) fn one_if(holds: bool) -> u32
    ensures { result ≡ cond holds 1 0 }
{
    if holds { 1 } else { 0 }
}

/// How many corners of a triangle have a name.
fn times_in(vertex: u32, t: (u32, u32, u32)) -> u32
    ensures times { result ≡ times_in vertex t }
    ensures few { result ≤ 3 }
{
    one_if(vertex == t.0) + one_if(vertex == t.1) + one_if(vertex == t.2)
}

/// How many corners have a name.
pub(crate) fn corners_named(triangles: &[(u32, u32, u32)], vertex: u32) -> u32
    requires { length triangles.now ≤ most_faces }
    ensures corners { result ≡ sum_by (times_in vertex) triangles.now }
    ensures few { result ≤ 3 * length triangles.now }
{
    let mut count = 0u32;
    for t in triangles {
        count += times_in(vertex, *t);
    }
    count
}

/// Whether a row starts at a vertex.
pub(crate) fn starts_row(rows: &[Row], vertex: u32) -> bool
    ensures { result ≡ list_any (λ r. r.from == vertex) rows.now }
{
    rows.iter().any(|r| r.from == vertex)
}

/// The name of the corner after that of a number, at which the side of the number starts.
pub(crate) fn start_name(triangles: &[(u32, u32, u32)], side: u32) -> u32
    requires { side / 3 < length triangles.now }
    ensures { result ≡ corner (slice_index_or triangles.now (side / 3) no_triangle) (place_after (place_of (side % 3))) }
{
    let t = triangle_at(triangles, side / 3);
    match side % 3 {
        0 => t.1,
        1 => t.2,
        _ => t.0,
    }
}
