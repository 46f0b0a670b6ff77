//! The keys of points.

ghost use Rattle.std.specs.Prelude.{◌≡◌, ◌<◌, ◌≤◌, ◌≤ℤ◌, ◌++◌, ◌∷◌, [], ℕ, pos, IfOk, OnOk, All, length, slice_index_or};
ghost use Rattle.attr_heads.specs.Head.{width_of};
ghost use Rattle.kd_tree.specs.Reading.{number_behind};
ghost use Rattle.kd_points.specs.Keys.{number_has_bit, key_of};
ghost use Rattle.kd_points.specs.Extents.{axes_over, depth_of, extents_of, keys_of, no_extent, offset_of};

use crate::axes::Axis;
use crate::extents::{Extent, distance};
use drc_base::Memory;
use kd_tree::{Keys, with_bit};
use mesh_model::Cloud;
use std::alloc::Global;

/// The bit of a point along an axis.
fn bit_along(axis: Axis, extents: &[Extent], row: &[i32]) -> bool
    requires row { axis.component < length row.now }
    requires extents { axis.component < length extents.now }
    requires bit { axis.bit < 32 }
    requires above { (slice_index_or extents.now axis.component no_extent).least ≤ℤ slice_index_or row.now axis.component (pos 0) }
    ensures { result ≡ number_has_bit axis.bit (offset_of extents.now row.now axis.component) }
{
    let component = axis.component as usize;
    (distance(extents[component].least, row[component]) >> axis.bit) % 2 == 1
}

/// Puts the key of a point in the place of the one before.
fn fill_key(
    key: &mut Vec<bool>,
    axes: &[Axis],
    extents: &[Extent],
    row: &[i32],
) -> Result<(), Memory>
    requires len { length extents.now ≡ length row.now }
    requires lie { All (λ axis. (axis.component < length extents.now) × (axis.bit < 32)) axes.now }
    requires above { (j : ℕ) → j < length row.now → (slice_index_or extents.now j no_extent).least ≤ℤ slice_index_or row.now j (pos 0) }
    ensures { OnOk result (key.new.items ≡ key_of axes.now (offset_of extents.now row.now)) }
{
    key.clear();
    for axis in axes {
        key.push(bit_along(*axis, extents, row))?;
    }
    Ok(())
}

/// The key of a point, of fewer than 64 bits, as a number.
fn key_number(axes: &[Axis], extents: &[Extent], row: &[i32]) -> u64
    requires few { length axes.now < 64 }
    requires len { length extents.now ≡ length row.now }
    requires lie { All (λ axis. (axis.component < length extents.now) × (axis.bit < 32)) axes.now }
    requires above { (j : ℕ) → j < length row.now → (slice_index_or extents.now j no_extent).least ≤ℤ slice_index_or row.now j (pos 0) }
    ensures { result ≡ number_behind 0 (key_of axes.now (offset_of extents.now row.now)) }
{
    let mut number = 0;
    for axis in axes {
        number = with_bit(number, bit_along(*axis, extents, row));
    }
    number
}

/// Adds the key of a point to those before. A key of 64 bits or more is put together in the room of another one.
fn push_key(
    keys: &mut Keys,
    room: &mut Vec<bool>,
    axes: &[Axis],
    extents: &[Extent],
    row: &[i32],
) -> Result<(), Memory>
    requires depth { length axes.now ≡ keys.old.depth }
    requires len { length extents.now ≡ length row.now }
    requires lie { All (λ axis. (axis.component < length extents.now) × (axis.bit < 32)) axes.now }
    requires above { (j : ℕ) → j < length row.now → (slice_index_or extents.now j no_extent).least ≤ℤ slice_index_or row.now j (pos 0) }
    ensures { OnOk result (keys.new ≡ record { depth = keys.old.depth; rows = keys.old.rows ++ key_of axes.now (offset_of extents.now row.now) ∷ [] }) }
{
    if axes.len() < 64 {
        keys.push_number(key_number(axes, extents, row))?;
        return Ok(());
    }
    fill_key(room, axes, extents, row)?;
    keys.push(room)?;
    Ok(())
}

/// The keys of the points of a cloud.
pub fn keys_of(
    alloc: Global,
    cloud: &Cloud,
    extents: &[Extent],
    axes: &[Axis],
    depth: u32,
) -> Result<Keys, Memory>
    requires extents { extents.now ≡ extents_of cloud.now }
    requires small { All (λ e. e.bits ≤ 32) extents.now }
    requires axes { axes.now ≡ axes_over extents.now }
    requires depth { depth ≡ depth_of extents.now }
    requires len { length axes.now ≡ depth }
    ensures { IfOk result (λ k. k ≡ record { depth = depth; rows = keys_of cloud.now }) }
{
    let mut keys = Keys::with_capacity(alloc, depth, cloud.point_count() as usize)?;
    let mut room = Vec::new(alloc);
    for p in 0..cloud.point_count() {
        push_key(&mut keys, &mut room, axes, extents, cloud.point(p))?;
    }
    Ok(keys)
}
