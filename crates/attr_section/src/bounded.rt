//! Values within the bounds of their attribute.

ghost use Rattle.std.specs.Prelude.{◌≡◌, ◌&&◌, int_le};
ghost use Rattle.std.specs.List.{list_all};
ghost use Rattle.attr_heads.specs.Bounds.{in_bounds};

use attr_heads::Bounds;

/// Whether all values are in a range. Each is looked at, without a way out of the loop, so that many are
/// compared at once.
#[inline(always)]
fn are_between(least: i32, greatest: i32, values: &[i32]) -> bool
    ensures { result ≡ list_all (λ x. int_le least x && int_le x greatest) values.now }
{
    let mut within = true;
    for i in 0..values.len() {
        let x = values[i];
        within &= least <= x && x <= greatest;
    }
    within
}

/// Whether all values lie within bounds.
#[tactic(auto, unfolding(attr_heads::specs::Bounds::in_bounds))]
pub fn are_in_bounds(bounds: Bounds, values: &[i32]) -> bool
    ensures { result ≡ list_all (in_bounds bounds) values.now }
{
    if bounds.least == i32::MIN && bounds.greatest == i32::MAX {
        // Every `i32` is between these, so that the compiler leaves no loop here.
        return are_between(i32::MIN, i32::MAX, values);
    }
    are_between(bounds.least, bounds.greatest, values)
}
