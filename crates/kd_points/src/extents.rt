//! Where the points of a cloud lie in each component.

ghost use Rattle.std.specs.Prelude.{◌≡◌, ◌<◌, ◌≤◌, ◌≤ℤ◌, ◌-ℤ◌, IfOk, All, length};
ghost use Rattle.drc_bits.specs.Digits.{digits};
ghost use Rattle.kd_points.specs.Extents.{above, extent_of, extents_of, column_of, least_in, greatest_in};
ghost use Rattle.attr_heads.specs.Head.{width_of};

use drc_base::Memory;
use mesh_model::Cloud;
use std::alloc::Global;

/// The integers of a component lie from the least one on, within so many bits.
#[derive(Clone, Copy)]
pub struct Extent {
    /// The least integer.
    pub least: i32,
    /// How many bits the integers' distances from it have, 0 to 32.
    pub bits: u8,
}

/// The number of binary digits of a number; that of 0 is 0.
fn digits_of(v: u32) -> u8
    ensures digits { result ≡ digits v }
    ensures most { result ≤ 32 }
{
    if v == 0 { 0 } else { v.ilog2() as u8 + 1 }
}

/// The least and the greatest integer of all points in a component.
fn reach_of(cloud: &Cloud, component: u32) -> (i32, i32)
    requires some { 0 < length cloud.now.points }
    requires component { component < width_of cloud.now.heads }
    ensures low { result.0 ≡ least_in (column_of component cloud.now.points) }
    ensures high { result.1 ≡ greatest_in (column_of component cloud.now.points) }
    ensures order { result.0 ≤ℤ result.1 }
{
    let first = cloud.point(0)[component as usize];
    let mut low = first;
    let mut high = first;
    for p in 0..cloud.point_count() {
        let value = cloud.point(p)[component as usize];
        low = low.min(value);
        high = high.max(value);
    }
    (low, high)
}

/// How far an integer is above another.
pub fn distance(low: i32, high: i32) -> u32
    requires { low ≤ℤ high }
    ensures { result ≡ above (high -ℤ low) }
{
    (i64::from(high) - i64::from(low)) as u32
}

/// The extent of a component.
fn extent_of(cloud: &Cloud, component: u32) -> Extent
    requires some { 0 < length cloud.now.points }
    requires component { component < width_of cloud.now.heads }
    ensures extent { result ≡ extent_of (column_of component cloud.now.points) }
    ensures bits { result.bits ≤ 32 }
{
    let (low, high) = reach_of(cloud, component);
    Extent {
        least: low,
        bits: digits_of(distance(low, high)),
    }
}

/// The extents of all components of a cloud: the least integers, and the digits of how far the greatest ones
/// are above them.
#[tactic(auto, unfolding(crate::specs::Extents::extents_of))]
pub fn extents_of(alloc: Global, cloud: &Cloud) -> Result<Vec<Extent>, Memory>
    requires { 0 < length cloud.now.points }
    ensures extents { IfOk result (λ v. v.items ≡ extents_of cloud.now) }
    ensures bits { IfOk result (λ v. All (λ e. e.bits ≤ 32) v.items) }
    ensures len { IfOk result (λ v. length v.items ≡ width_of cloud.now.heads) }
    ensures few { IfOk result (λ v. length v.items ≤ 128) }
{
    let mut extents = Vec::new(alloc);
    for component in 0..cloud.width() {
        extents.push(extent_of(cloud, component))?;
    }
    Ok(extents)
}
