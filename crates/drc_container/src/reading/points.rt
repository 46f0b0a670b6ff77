//! The points of a sequential stream from the columns of its attributes.

ghost use Rattle.std.specs.Prelude.{◌≡◌, ◌<◌, ◌≤◌, ◌+◌, ◌++◌, map, length, take, drop, IfOk, OnOk};
ghost use Rattle.attr_section.specs.Attributes.{AreColumns};
ghost use Rattle.drc_container.specs.Columns.{column_row, cells_at};

use attr_heads::Head;
use attr_section::Values;
use drc_base::Memory;
use std::alloc::Global;

/// The integers of so many points, point after point, each with those of all attributes in order. The
/// columns are freed; where there is one column alone, it is what is answered.
pub fn points_of(
    alloc: Global,
    points: u32,
    heads: &[Head],
    values: Vec<Values>,
) -> Result<Vec<i32>, Memory>
    requires { AreColumns points heads.now values.items }
    ensures { IfOk result (λ v. v.items ≡ cells_at heads.now (map (λ v. v.values) values.items) points) }
{
    let mut values = values;
    if values.len() == 1 {
        let only = values.swap_remove(0);
        return Ok(only.values.into_vec());
    }
    rows_of(alloc, points, heads, values.as_slice())
}

/// The integers of so many points, from columns that stay.
fn rows_of(
    alloc: Global,
    points: u32,
    heads: &[Head],
    values: &[Values],
) -> Result<Vec<i32>, Memory>
    requires { AreColumns points heads.now values.now }
    ensures { IfOk result (λ v. v.items ≡ cells_at heads.now (map (λ v. v.values) values.now) points) }
{
    let mut cells = Vec::new(alloc);
    for i in 0..points {
        put_row(&mut cells, points, heads, values, i)?;
    }
    Ok(cells)
}

/// Appends the integers of point `i`.
fn put_row(
    cells: &mut Vec<i32>,
    points: u32,
    heads: &[Head],
    values: &[Values],
    i: u32,
) -> Result<(), Memory>
    requires columns { AreColumns points heads.now values.now }
    requires point { i < points }
    ensures { OnOk result (cells.new.items ≡ cells.old.items ++ column_row heads.now (map (λ v. v.values) values.now) i) }
{
    for k in 0..heads.len() {
        let comps = heads[k].comps as usize;
        put_piece(
            cells,
            values[k].values.as_slice(),
            i as usize * comps,
            comps,
        )?;
    }
    Ok(())
}

/// Appends `comps` integers of a column, from `start` on: up to three one by one, which costs less than a
/// call that copies.
fn put_piece(cells: &mut Vec<i32>, column: &[i32], start: usize, comps: usize) -> Result<(), Memory>
    requires { start + comps ≤ length column.now }
    ensures { OnOk result (cells.new.items ≡ cells.old.items ++ take comps (drop start column.now)) }
{
    match &column[start..start + comps] {
        [a] => cells.push(*a)?,
        [a, b] => {
            cells.push(*a)?;
            cells.push(*b)?;
        }
        [a, b, d] => {
            cells.push(*a)?;
            cells.push(*b)?;
            cells.push(*d)?;
        }
        values => cells.extend_from_slice(values)?,
    }
    Ok(())
}
