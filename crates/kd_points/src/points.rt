//! Points from their keys.

ghost use Rattle.std.specs.Prelude.{◌≡◌, ◌<◌, ◌≤◌, ◌^◌, ◌+◌, ◌++◌, ◌*◌, ◌≤ℤ◌, ℕ, pos, negsuc, [], ◌∷◌, true, false, IsTrue, None, map, min, replicate, IfOk, OnOk, All, length, slice_index, slice_index_or, slice_set};
ghost use Rattle.std.specs.List.{range_with_len};
ghost use Rattle.drc_base.specs.Refusals.{Answers};
ghost use Rattle.attr_heads.specs.Bounds.{in_bounds, no_bounds};
ghost use Rattle.attr_heads.specs.Octahedra.{has_square_bits};
ghost use Rattle.attr_heads.specs.Head.{heads_fault, row_bounds, width_of};
ghost use Rattle.mesh_model.specs.Parts.{cells_of};
ghost use Rattle.kd_tree.specs.Keys.{key_at};
ghost use Rattle.kd_tree.specs.Trees.{high_bits};
ghost use Rattle.kd_points.specs.Extents.{axes_over, depth_of, integer_at, row_within};
ghost use Rattle.kd_points.specs.Keys.{offset_in};
ghost use Rattle.kd_points.specs.Meaning.{cloud_of_keys, FirstOutside};

use crate::axes::Axis;
use crate::extents::Extent;
use crate::headers::Header;
use attr_heads::{Bounds, Head};
use drc_base::{Fault, Kind, MAX_KD_POINTS, MAX_KD_VALUES, Memory, Refusal};
use kd_tree::{Keys, bit_in};
use mesh_model::Cloud;
use std::alloc::Global;

/// How many bytes the extent of a component takes.
const EXTENT_SIZE: u64 = 5;

/// Appends the bounds of each of so many components.
fn append_bounds(row: &mut Vec<Bounds>, bounds: Bounds, comps: u8) -> Result<(), Memory>
    ensures { OnOk result (row.new.items ≡ row.old.items ++ replicate comps bounds) }
{
    for _component in 0..comps {
        row.push(bounds)?;
    }
    Ok(())
}

/// The bounds of each integer of a point.
fn row_bounds(alloc: Global, heads: &[Head]) -> Result<Vec<Bounds>, Memory>
    requires { All (λ h. IsTrue (has_square_bits h.octa)) heads.now }
    ensures { IfOk result (λ v. v.items ≡ row_bounds heads.now) }
{
    let mut row = Vec::new(alloc);
    for head in heads {
        append_bounds(&mut row, head.bounds(), head.comps)?;
    }
    Ok(row)
}

/// Sets all offsets to 0.
fn clear(offsets: &mut [u32])
    ensures { (j : ℕ) → j < length offsets.new → slice_index offsets.new j ≡ 0 }
{
    for offset in offsets.iter_mut() {
        *offset = 0;
    }
}

/// Adds what the bit of a key gives in an axis' component: the bit's power of two where it is 1.
fn add_bit(offsets: &mut [u32], axis: Axis, bit: bool)
    requires component { axis.component < length offsets.old }
    requires small { axis.bit < 32 }
    requires fits { bit ≡ true → slice_index offsets.old axis.component + 2 ^ axis.bit < 2 ^ 32 }
    ensures low { bit ≡ false → offsets.new ≡ offsets.old }
    ensures high { bit ≡ true → offsets.new ≡ slice_set offsets.old axis.component (slice_index offsets.old axis.component + 2 ^ axis.bit) }
{
    offsets[axis.component as usize] += if bit { 1 << axis.bit } else { 0 };
}

/// Adds what a key of fewer than 64 bits gives to offsets of 0: the key with this number.
fn add_number(offsets: &mut [u32], axes: &[Axis], number: u64)
    requires few { length axes.now < 64 }
    requires lie { All (λ axis. (axis.component < length offsets.old) × (axis.bit < 32)) axes.now }
    requires fit { (j : ℕ) → offset_in axes.now (high_bits (length axes.now) number) j < 2 ^ 32 }
    requires none { (j : ℕ) → j < length offsets.old → slice_index offsets.old j ≡ 0 }
    ensures { (j : ℕ) → j < length offsets.new → slice_index offsets.new j ≡ offset_in axes.now (high_bits (length axes.now) number) j }
{
    for d in 0..axes.len() {
        add_bit(
            offsets,
            axes[d],
            bit_in(number, axes.len() as u32, d as u32),
        );
    }
}

/// Adds what a key of any number of bits gives to offsets of 0.
fn add_key(offsets: &mut [u32], axes: &[Axis], keys: &Keys, point: usize)
    requires point { point < length keys.now.rows }
    requires long { length (key_at keys.now.rows point) ≡ keys.now.depth }
    requires depth { length axes.now ≡ keys.now.depth }
    requires lie { All (λ axis. (axis.component < length offsets.old) × (axis.bit < 32)) axes.now }
    requires fit { (j : ℕ) → offset_in axes.now (key_at keys.now.rows point) j < 2 ^ 32 }
    requires none { (j : ℕ) → j < length offsets.old → slice_index offsets.old j ≡ 0 }
    ensures { (j : ℕ) → j < length offsets.new → slice_index offsets.new j ≡ offset_in axes.now (key_at keys.now.rows point) j }
{
    for d in 0..keys.depth() {
        add_bit(offsets, axes[d as usize], keys.bit(point, d));
    }
}

/// Puts the offsets that a key gives in the place of those before.
fn fill_offsets(offsets: &mut [u32], axes: &[Axis], keys: &Keys, point: usize)
    requires point { point < length keys.now.rows }
    requires long { length (key_at keys.now.rows point) ≡ keys.now.depth }
    requires depth { length axes.now ≡ keys.now.depth }
    requires lie { All (λ axis. (axis.component < length offsets.old) × (axis.bit < 32)) axes.now }
    requires fit { (j : ℕ) → offset_in axes.now (key_at keys.now.rows point) j < 2 ^ 32 }
    ensures { (j : ℕ) → j < length offsets.new → slice_index offsets.new j ≡ offset_in axes.now (key_at keys.now.rows point) j }
{
    clear(offsets);
    if keys.depth() < 64 {
        add_number(offsets, axes, keys.number(point));
        return;
    }
    add_key(offsets, axes, keys, point);
}

/// Whether a number lies within bounds.
#[tactic(auto, unfolding(attr_heads::specs::Bounds::in_bounds))]
fn is_within(bounds: Bounds, value: i64) -> bool
    ensures typed { result ≡ in_bounds bounds value }
    ensures low { IsTrue result → negsuc 2147483647 ≤ℤ value }
    ensures high { IsTrue result → value ≤ℤ pos 2147483647 }
{
    i64::from(bounds.least) <= value && value <= i64::from(bounds.greatest)
}

/// Appends an integer of a component where it lies within its bounds. Gives the first component with an integer
/// outside its bounds, where before this one it was `outside`.
fn append_value(
    cells: &mut Vec<i32>,
    bounds: Bounds,
    value: i64,
    component: usize,
    outside: usize,
) -> Result<usize, Memory>
    ensures typed { IfOk result (λ r. in_bounds bounds value ≡ true → (r ≡ outside) × (cells.new.items ≡ cells.old.items ++ value ∷ [])) }
    ensures outside { IfOk result (λ r. in_bounds bounds value ≡ false → r ≡ min outside component) }
{
    if !is_within(bounds, value) {
        return Ok(outside.min(component));
    }
    cells.push(value as i32)?;
    Ok(outside)
}

/// The integer at an offset in a component.
fn integer_at(extents: &[Extent], offsets: &[u32], component: usize) -> i64
    requires extents { component < length extents.now }
    requires offsets { component < length offsets.now }
    ensures { result ≡ integer_at extents.now offsets.now component }
{
    i64::from(extents[component].least) + i64::from(offsets[component])
}

/// Appends the integers of a point. Gives the first component with an integer outside its bounds, of
/// this point and of those before, whose first one is given; the number of components stands for none.
fn append_point(
    cells: &mut Vec<i32>,
    row: &[Bounds],
    extents: &[Extent],
    offsets: &[u32],
    before: usize,
) -> Result<usize, Memory>
    requires extents { length extents.now ≡ length row.now }
    requires offsets { length offsets.now ≡ length row.now }
    requires before { before ≤ length row.now }
    ensures kept { IfOk result (λ r. r ≤ before) }
    ensures typed { IfOk result (λ r. (j : ℕ) → j < r → in_bounds (slice_index_or row.now j no_bounds) (integer_at extents.now offsets.now j) ≡ true) }
    ensures outside { IfOk result (λ r. r < before → in_bounds (slice_index_or row.now r no_bounds) (integer_at extents.now offsets.now r) ≡ false) }
    ensures cells { IfOk result (λ r. r ≡ length row.now → cells.new.items ≡ cells.old.items ++ map (integer_at extents.now offsets.now) (range_with_len 0 (length row.now))) }
{
    let mut outside = before;
    for component in 0..row.len() {
        let value = integer_at(extents, offsets, component);
        outside = append_value(cells, row[component], value, component, outside)?;
    }
    Ok(outside)
}

/// Appends the integers of the points that keys give, as long as all lie within their bounds. Gives the first
/// component with an integer outside its bounds; the number of components stands for none.
fn append_points(
    cells: &mut Vec<i32>,
    row: &[Bounds],
    extents: &[Extent],
    offsets: &mut [u32],
    axes: &[Axis],
    keys: &Keys,
) -> Result<usize, Memory>
    requires empty { cells.old.items ≡ [] }
    requires extents { length extents.now ≡ length row.now }
    requires offsets { length offsets.old ≡ length row.now }
    requires axes { axes.now ≡ axes_over extents.now }
    requires depth { keys.now.depth ≡ depth_of extents.now }
    requires small { All (λ e. e.bits ≤ 32) extents.now }
    ensures first { IfOk result (λ r. FirstOutside row.now (map (row_within extents.now) keys.now.rows) r) }
    ensures cells { IfOk result (λ r. r ≡ length row.now → cells.new.items ≡ cells_of (map (row_within extents.now) keys.now.rows)) }
{
    let mut outside = row.len();
    for point in 0..keys.len() {
        fill_offsets(offsets, axes, keys, point);
        outside = append_point(cells, row, extents, offsets, outside)?;
    }
    Ok(outside)
}

/// The integers of the points that keys give, as long as all lie within their bounds, and the first component
/// with an integer outside its bounds; the number of components stands for none.
fn points_within(
    alloc: Global,
    heads: &[Head],
    extents: &[Extent],
    axes: &[Axis],
    keys: &Keys,
) -> Result<(Vec<i32>, usize), Memory>
    requires squares { All (λ h. IsTrue (has_square_bits h.octa)) heads.now }
    requires len { length extents.now ≡ width_of heads.now }
    requires axes { axes.now ≡ axes_over extents.now }
    requires depth { keys.now.depth ≡ depth_of extents.now }
    requires small { All (λ e. e.bits ≤ 32) extents.now }
    ensures first { IfOk result (λ r. FirstOutside (row_bounds heads.now) (map (row_within extents.now) keys.now.rows) r.1) }
    ensures cells { IfOk result (λ r. r.1 ≡ width_of heads.now → r.0.items ≡ cells_of (map (row_within extents.now) keys.now.rows)) }
{
    let row = row_bounds(alloc, heads)?;
    let mut offsets = Vec::from_elem(alloc, 0u32, extents.len())?;
    let mut cells = Vec::new(alloc);
    let outside = append_points(&mut cells, &row, extents, &mut offsets, axes, keys)?;
    Ok((cells, outside))
}

/// The cloud of a header and keys, or `ValueRange` at the extent of the first component with an integer
/// outside its bounds.
pub fn cloud_of_keys(
    alloc: Global,
    header: Header,
    axes: &[Axis],
    keys: &Keys,
) -> Result<Cloud, Refusal>
    requires pass { heads_fault header.heads ≡ None }
    requires len { length header.extents ≡ width_of header.heads }
    requires small { All (λ e. e.bits ≤ 32) header.extents }
    requires room { header.at + 5 * width_of header.heads < 2 ^ 64 }
    requires axes { axes.now ≡ axes_over header.extents }
    requires depth { keys.now.depth ≡ depth_of header.extents }
    requires few { length keys.now.rows ≤ MAX_KD_POINTS }
    requires values { length keys.now.rows * width_of header.heads ≤ MAX_KD_VALUES }
    ensures { Answers (λ c. c) (cloud_of_keys header keys.now.rows) result }
{
    let Header {
        heads,
        count: _,
        extents,
        at,
    } = header;
    let width = extents.len();
    let (cells, outside) = points_within(alloc, heads.as_slice(), extents.as_slice(), axes, keys)?;
    if outside < width {
        let place = at + EXTENT_SIZE * outside as u64;
        return Err(Refusal::Fault(Fault::new(Kind::ValueRange, place)));
    }
    Cloud::of_typed(heads.into_vec(), cells)
}
