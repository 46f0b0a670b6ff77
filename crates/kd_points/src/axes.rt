//! The axes along which a cloud is halved, one after another.

ghost use Rattle.std.specs.Prelude.{◌≡◌, ◌<◌, ◌≤◌, ◌+◌, ◌-◌, ◌++◌, ℕ, IfOk, OnOk, All, length, map, sum, slice_index};
ghost use Rattle.kd_points.specs.Axes.{axes_in, fullest, one_fewer};
ghost use Rattle.kd_points.specs.Extents.{axes_over, depth_of};

use crate::extents::Extent;
use drc_base::Memory;
use std::alloc::Global;

/// One bit of one component of a point.
#[derive(Clone, Copy)]
pub struct Axis {
    /// The component, counted from 0.
    pub component: u32,
    /// The bit, counted from the lowest.
    pub bit: u32,
}

/// The component with the most bits left, the least on ties.
fn fullest(left: &[u32]) -> usize
    requires { 0 < length left.now }
    ensures fullest { result ≡ fullest left.now }
    ensures within { result < length left.now }
{
    let mut best = 0;
    for k in 1..left.len() {
        if left[k] > left[best] {
            best = k;
        }
    }
    best
}

/// How many bits each component has.
fn bits_of(alloc: Global, extents: &[Extent]) -> Result<Vec<u32>, Memory>
    ensures { IfOk result (λ v. v.items ≡ map (λ e. e.bits) extents.now) }
{
    let mut bits = Vec::new(alloc);
    for extent in extents {
        bits.push(u32::from(extent.bits))?;
    }
    Ok(bits)
}

/// How many bits the keys within extents have.
pub fn depth_of(extents: &[Extent]) -> u32
    requires few { length extents.now ≤ 128 }
    requires small { All (λ e. e.bits ≤ 32) extents.now }
    ensures depth { result ≡ depth_of extents.now }
    ensures most { result ≤ 4096 }
{
    let mut depth: u32 = 0;
    for extent in extents {
        depth += u32::from(extent.bits);
    }
    depth
}

/// The next axis: the fullest component gives its highest bit that is left.
fn next_axis(left: &mut [u32]) -> Axis
    requires some { 0 < length left.old }
    requires bits { 0 < sum left.old }
    requires few { length left.old ≤ 128 }
    ensures axis { result ≡ record { component = fullest left.old; bit = slice_index left.old (fullest left.old) - 1 } }
    ensures left { left.new ≡ one_fewer left.old (fullest left.old) }
    ensures fewer { sum left.new + 1 ≡ sum left.old }
{
    let component = fullest(left);
    left[component] -= 1;
    Axis {
        component: component as u32,
        bit: left[component],
    }
}

/// Appends the axes of components with so many bits left, until no bits are left.
fn append_axes(axes: &mut Vec<Axis>, left: &mut [u32], depth: u32) -> Result<(), Memory>
    requires few { length left.old ≤ 128 }
    requires all { sum left.old ≡ depth }
    ensures { OnOk result (axes.new.items ≡ axes.old.items ++ axes_in depth left.old) }
{
    for _axis in 0..depth {
        let axis = next_axis(left);
        axes.push(axis)?;
    }
    Ok(())
}

/// The axes within extents. Again and again the component with the most bits left gives its highest one,
/// the least such component on ties, until no bits are left.
pub fn axes_over(alloc: Global, extents: &[Extent]) -> Result<Vec<Axis>, Memory>
    requires few { length extents.now ≤ 128 }
    requires small { All (λ e. e.bits ≤ 32) extents.now }
    ensures axes { IfOk result (λ v. v.items ≡ axes_over extents.now) }
    ensures len { IfOk result (λ v. length v.items ≡ depth_of extents.now) }
{
    let mut left = bits_of(alloc, extents)?;
    let depth = depth_of(extents);
    let mut axes = Vec::with_capacity(alloc, depth as usize)?;
    append_axes(&mut axes, &mut left, depth)?;
    Ok(axes)
}
