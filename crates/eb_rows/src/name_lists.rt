//! The names of each face's corners and the rows, once a face more is built.
//!
//! Both lists are made anew before anything is changed, so that a table of names takes both of them or
//! stays as it was.

ghost use Rattle.std.specs.Prelude.{◌≡◌, ◌<◌, [], ◌∷◌, ◌++◌, map, IfOk};
ghost use Rattle.drc_base.specs.declared.limits.TheConstants.{MAX_FACES as most_faces};
ghost use Rattle.corner_table.specs.Sides.{first, second, third, side_at};
ghost use Rattle.eb_machine.specs.Beside.{free_place, new_triangle};
ghost use Rattle.eb_machine.specs.Named.{new_row, without, renamed, renamed_triangle, renamed_row};
ghost use Rattle.eb_rows.specs.Rowed.{row_listed, all_listed};

use crate::active_rows::{
    Row, all_rows, first_row, renamed_rows, renamed_triangles, second_row, third_row,
    triangle_renamed, with_row, with_triangle, without,
};
use drc_base::Memory;
use eb_machine::Beside;
use std::alloc::{AllocError, Global};

/// The names of the corners of each face, and the rows.
#[derive(Debug, Drop)]
pub(crate) struct NameLists {
    pub(crate) triangles: Vec<(u32, u32, u32)>,
    pub(crate) rows: Vec<Row>,
}

/// The row of the side that is free besides side 0, of a face with one side glued.
fn free_row(beside: Beside, face: u32, t: (u32, u32, u32)) -> Row
    requires { face < most_faces }
    ensures { row_listed result ≡ new_row face t (free_place beside) }
{
    match beside {
        Beside::Left => third_row(face, t),
        Beside::Right => second_row(face, t),
    }
}

/// All rows but those of sides a and b.
fn without_two(alloc: Global, rows: &[Row], a: u32, b: u32) -> Result<Vec<Row>, AllocError>
    ensures { IfOk result (λ v. all_listed v.items ≡ without (side_at b) (without (side_at a) (all_listed rows.now))) }
{
    let some = without(alloc, rows, a)?;
    let fewer = without(alloc, some.as_slice(), b)?;
    Ok(fewer)
}

/// All rows but those of sides a, b and c.
fn without_three(
    alloc: Global,
    rows: &[Row],
    a: u32,
    b: u32,
    c: u32,
) -> Result<Vec<Row>, AllocError>
    ensures { IfOk result (λ v. all_listed v.items ≡ without (side_at c) (without (side_at b) (without (side_at a) (all_listed rows.now)))) }
{
    let some = without_two(alloc, rows, a, b)?;
    let fewer = without(alloc, some.as_slice(), c)?;
    Ok(fewer)
}

/// All rows, and those of a face no side of which is glued.
fn rows_after_end(
    alloc: Global,
    rows: &[Row],
    face: u32,
    t: (u32, u32, u32),
) -> Result<Vec<Row>, Memory>
    requires { face < most_faces }
    ensures { IfOk result (λ v. all_listed v.items ≡ all_listed rows.now ++ (new_row face t first ∷ new_row face t second ∷ new_row face t third ∷ [])) }
{
    let kept = all_rows(alloc, rows)?;
    let one = with_row(kept, first_row(face, t))?;
    let two = with_row(one, second_row(face, t))?;
    let three = with_row(two, third_row(face, t))?;
    Ok(three)
}

/// All rows but that of side a, and those of a face that is glued to it.
fn rows_after_beside(
    alloc: Global,
    rows: &[Row],
    face: u32,
    beside: Beside,
    a: u32,
    t: (u32, u32, u32),
) -> Result<Vec<Row>, Memory>
    requires { face < most_faces }
    ensures { IfOk result (λ v. all_listed v.items ≡ without (side_at a) (all_listed rows.now) ++ (new_row face t first ∷ new_row face t (free_place beside) ∷ [])) }
{
    let kept = without(alloc, rows, a)?;
    let one = with_row(kept, first_row(face, t))?;
    let two = with_row(one, free_row(beside, face, t))?;
    Ok(two)
}

/// All rows but those of sides a and b, and side 0 of a face that is glued to both.
fn rows_after_tip(
    alloc: Global,
    rows: &[Row],
    face: u32,
    a: u32,
    b: u32,
    t: (u32, u32, u32),
) -> Result<Vec<Row>, Memory>
    requires { face < most_faces }
    ensures { IfOk result (λ v. all_listed v.items ≡ without (side_at b) (without (side_at a) (all_listed rows.now)) ++ (new_row face t first ∷ [])) }
{
    let kept = without_two(alloc, rows, a, b)?;
    let one = with_row(kept, first_row(face, t))?;
    Ok(one)
}

/// All rows but b and a, renamed as the vertex at which b starts becomes the one at which a ends, and
/// side 0 of a face that is glued to both.
fn rows_after_split(
    alloc: Global,
    rows: &[Row],
    face: u32,
    b: Row,
    a: Row,
    t: (u32, u32, u32),
) -> Result<Vec<Row>, Memory>
    requires { face < most_faces }
    ensures { IfOk result (λ v. all_listed v.items ≡ map (renamed_row (renamed b.from a.to)) (without (side_at b.side) (without (side_at a.side) (all_listed rows.now))) ++ (new_row face t first ∷ [])) }
{
    let kept = without_two(alloc, rows, a.side, b.side)?;
    let told = renamed_rows(alloc, kept.as_slice(), b.from, a.to)?;
    let one = with_row(told, first_row(face, t))?;
    Ok(one)
}

/// E: a face of three new vertices, no side of which is glued.
pub(crate) fn after_end(
    alloc: Global,
    old: &NameLists,
    face: u32,
    t: (u32, u32, u32),
) -> Result<NameLists, Memory>
    requires { face < most_faces }
    ensures triangles { IfOk result (λ l. l.triangles.items ≡ old.now.triangles.items ++ (t ∷ [])) }
    ensures rows { IfOk result (λ l. all_listed l.rows.items ≡ all_listed old.now.rows.items ++ (new_row face t first ∷ new_row face t second ∷ new_row face t third ∷ [])) }
{
    let triangles = with_triangle(alloc, old.triangles.as_slice(), t)?;
    let rows = rows_after_end(alloc, old.rows.as_slice(), face, t)?;
    Ok(NameLists { triangles, rows })
}

/// L and R: a face that is glued to row a, with a new vertex.
pub(crate) fn after_beside(
    alloc: Global,
    old: &NameLists,
    face: u32,
    beside: Beside,
    a: Row,
    vertex: u32,
) -> Result<NameLists, Memory>
    requires { face < most_faces }
    ensures triangles { IfOk result (λ l. l.triangles.items ≡ old.now.triangles.items ++ (new_triangle beside a.from a.to vertex ∷ [])) }
    ensures rows { IfOk result (λ l. all_listed l.rows.items ≡ without (side_at a.side) (all_listed old.now.rows.items)
        ++ (new_row face (new_triangle beside a.from a.to vertex) first ∷ new_row face (new_triangle beside a.from a.to vertex) (free_place beside) ∷ [])) }
{
    let t = beside.triangle(a.from, a.to, vertex);
    let triangles = with_triangle(alloc, old.triangles.as_slice(), t)?;
    let rows = rows_after_beside(alloc, old.rows.as_slice(), face, beside, a.side, t)?;
    Ok(NameLists { triangles, rows })
}

/// C: a face that is glued to row a and to row b, which ends where a starts.
pub(crate) fn after_tip(
    alloc: Global,
    old: &NameLists,
    face: u32,
    a: Row,
    b: Row,
) -> Result<NameLists, Memory>
    requires { face < most_faces }
    ensures triangles { IfOk result (λ l. l.triangles.items ≡ old.now.triangles.items ++ ((a.from, b.from, a.to) ∷ [])) }
    ensures rows { IfOk result (λ l. all_listed l.rows.items ≡ without (side_at b.side) (without (side_at a.side) (all_listed old.now.rows.items)) ++ (new_row face (a.from, b.from, a.to) first ∷ [])) }
{
    let t = (a.from, b.from, a.to);
    let triangles = with_triangle(alloc, old.triangles.as_slice(), t)?;
    let rows = rows_after_tip(alloc, old.rows.as_slice(), face, a.side, b.side, t)?;
    Ok(NameLists { triangles, rows })
}

/// S: a face that is glued to rows b and a. The vertex at which b starts becomes the one at which a
/// ends.
pub(crate) fn after_split(
    alloc: Global,
    old: &NameLists,
    face: u32,
    b: Row,
    a: Row,
) -> Result<NameLists, Memory>
    requires { face < most_faces }
    ensures triangles { IfOk result (λ l. l.triangles.items ≡ map (renamed_triangle (renamed b.from a.to)) old.now.triangles.items ++ (renamed_triangle (renamed b.from a.to) (a.to, a.from, b.to) ∷ [])) }
    ensures rows { IfOk result (λ l. all_listed l.rows.items ≡ map (renamed_row (renamed b.from a.to)) (without (side_at b.side) (without (side_at a.side) (all_listed old.now.rows.items)))
        ++ (new_row face (renamed_triangle (renamed b.from a.to) (a.to, a.from, b.to)) first ∷ [])) }
{
    let t = triangle_renamed(b.from, a.to, (a.to, a.from, b.to));
    let told = renamed_triangles(alloc, old.triangles.as_slice(), b.from, a.to)?;
    let triangles = with_triangle(alloc, told.as_slice(), t)?;
    let rows = rows_after_split(alloc, old.rows.as_slice(), face, b, a, t)?;
    Ok(NameLists { triangles, rows })
}

/// A face that fills the loop of rows a, b and c: b ends where a starts, and c where b starts.
pub(crate) fn after_fill(
    alloc: Global,
    old: &NameLists,
    a: Row,
    b: Row,
    c: Row,
) -> Result<NameLists, Memory>
    ensures triangles { IfOk result (λ l. l.triangles.items ≡ old.now.triangles.items ++ ((b.from, a.to, a.from) ∷ [])) }
    ensures rows { IfOk result (λ l. all_listed l.rows.items ≡ without (side_at c.side) (without (side_at b.side) (without (side_at a.side) (all_listed old.now.rows.items)))) }
{
    let t = (b.from, a.to, a.from);
    let triangles = with_triangle(alloc, old.triangles.as_slice(), t)?;
    let rows = without_three(alloc, old.rows.as_slice(), a.side, b.side, c.side)?;
    Ok(NameLists { triangles, rows })
}
