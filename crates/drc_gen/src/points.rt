//! The points of generated meshes, row after row. The walk takes one draw a turn: turn k of a lattice
//! makes point (k mod side, k div side), turn k of a fan point k, turn k of patches the four points
//! of cell (k mod n, k div n).

ghost use Rattle.std.specs.Prelude.{◌≡◌, ◌*◌, ◌^◌, ◌<◌, ◌≤◌, ◌++◌, IfOk, OnOk};
ghost use Rattle.mesh_model.specs.Parts.{cells_of};
ghost use Rattle.drc_gen.specs.Generated.{lattice_point, fan_point, patch, generated_points};
ghost use Rattle.drc_gen.specs.GeneratedLaws.{IsSize};
ghost use Rattle.drc_gen.specs.Lattice.{pair_at};
ghost use Rattle.drc_gen.specs.Turns.{draw_count, points_at};

use crate::draws::Draws;
use crate::kinds::GenKind;
use drc_base::Memory;
use std::alloc::Global;

/// The labels of patches are draws modulo this.
const LABELS: u32 = 256;

/// Appends point (i, j) of a lattice.
fn put_lattice_point(cells: &mut Vec<i32>, i: u32, j: u32, height: u32) -> Result<(), Memory>
    requires { (i < 1024) × (j < 1024) × (height < 1024) }
    ensures { OnOk result (cells.new.items ≡ cells.old.items ++ lattice_point height (i, j)) }
{
    cells.extend_from_slice(&[i as i32, j as i32, height as i32])?;
    Ok(())
}

/// Appends the point of number `k` of a lattice of `side` points each way.
fn put_point_at(cells: &mut Vec<i32>, side: u32, k: u32, height: u32) -> Result<(), Memory>
    requires side { (0 < side) × (side < 1024) }
    requires k { k < side * side }
    requires height { height < 1024 }
    ensures { OnOk result (cells.new.items ≡ cells.old.items ++ lattice_point height (pair_at side k)) }
{
    put_lattice_point(cells, k % side, k / side, height)
}

/// Appends point m of a fan.
fn put_fan_point(cells: &mut Vec<i32>, m: u32, height: u32) -> Result<(), Memory>
    requires { (m < 2 ^ 31) × (height < 1024) }
    ensures { OnOk result (cells.new.items ≡ cells.old.items ++ fan_point height m) }
{
    let away = if m == 0 { 0 } else { 1 };
    cells.extend_from_slice(&[m as i32, away, height as i32])?;
    Ok(())
}

/// Appends the four points of the patch of cell (i, j).
fn put_patch(cells: &mut Vec<i32>, i: u32, j: u32, drawn: u32) -> Result<(), Memory>
    requires { (i < 1024) × (j < 1024) }
    ensures { OnOk result (cells.new.items ≡ cells.old.items ++ cells_of (patch drawn (i, j))) }
{
    let label = (drawn % LABELS) as i32;
    let (left, right) = (i as i32, i as i32 + 1);
    let (low, high) = (j as i32, j as i32 + 1);
    cells.extend_from_slice(&[
        left, low, 0, label, right, low, 0, label, left, high, 0, label, right, high, 0, label,
    ])?;
    Ok(())
}

/// Appends the patch of the cell of number `k`.
fn put_patch_at(cells: &mut Vec<i32>, size: u32, k: u32, drawn: u32) -> Result<(), Memory>
    requires size { (0 < size) × (size < 1024) }
    requires k { k < size * size }
    ensures { OnOk result (cells.new.items ≡ cells.old.items ++ cells_of (patch drawn (pair_at size k))) }
{
    put_patch(cells, k % size, k / size, drawn)
}

/// Appends the points that draw `k` makes.
fn put_points(
    cells: &mut Vec<i32>,
    kind: GenKind,
    size: u32,
    k: u32,
    drawn: u32,
) -> Result<(), Memory>
    requires size { IsSize size }
    requires k { k < draw_count kind size }
    requires drawn { drawn < 1024 }
    ensures { OnOk result (cells.new.items ≡ cells.old.items ++ cells_of (points_at kind size k drawn)) }
{
    match kind {
        GenKind::Grid => put_point_at(cells, size + 1, k, drawn),
        GenKind::Torus => put_point_at(cells, size, k, drawn),
        GenKind::Holes => put_point_at(cells, size + 1, k, drawn),
        GenKind::Fans => put_fan_point(cells, k, drawn),
        GenKind::Seams => put_patch_at(cells, size, k, drawn),
    }
}

/// How many draws the points of a kind take.
fn count_draws(kind: GenKind, size: u32) -> u32
    requires { IsSize size }
    ensures exact { result ≡ draw_count kind size }
    ensures few { result < 2 ^ 20 }
{
    match kind {
        GenKind::Grid => (size + 1) * (size + 1),
        GenKind::Torus => size * size,
        GenKind::Holes => (size + 1) * (size + 1),
        GenKind::Fans => 2 * (size * size) + 1,
        GenKind::Seams => size * size,
    }
}

/// How many integers one draw makes.
fn cells_of_draw(kind: GenKind) -> usize
    ensures { result ≤ 16 }
{
    match kind {
        GenKind::Seams => 16,
        _ => 3,
    }
}

/// The points of a kind, a size and a seed, row after row.
pub(crate) fn make_points(
    alloc: Global,
    kind: GenKind,
    size: u32,
    seed: u64,
) -> Result<Vec<i32>, Memory>
    requires { IsSize size }
    ensures { IfOk result (λ cells. cells.items ≡ cells_of (generated_points kind size seed)) }
{
    let turns = count_draws(kind, size);
    let mut cells = Vec::with_capacity(alloc, turns as usize * cells_of_draw(kind))?;
    let mut draws = Draws::new(seed);
    for k in 0..turns {
        let drawn = draws.next();
        put_points(&mut cells, kind, size, k, drawn)?;
    }
    Ok(cells)
}
