//! Prediction by one parallelogram.
//!
//! The order keeps the face across of each entry, so entry after entry is predicted from the values
//! before with no look at the surface.

ghost use Rattle.std.specs.Prelude.{◌≡◌, ◌*◌, ◌<◌, ◌≤ℤ◌, length, IfOk};
ghost use Rattle.std.specs.List.{All};
ghost use Rattle.predict.specs.Wrap.{CanWrap, HasEnds, least_correction, greatest_correction};
ghost use Rattle.predict.specs.Restored.{restored, corrections};
ghost use Rattle.predict.specs.Surfaces.{surface, IsOverTable};
ghost use Rattle.predict.specs.Parallelogram.{parallelogram};

use crate::entry::correct_by_one;
use crate::orders::Ordered;
use crate::wraps::Wrap;
use drc_base::Memory;
use std::alloc::Global;

/// Puts the corrections of all entries.
fn correct_entries(w: &Wrap, comps: usize, on: &Ordered<'_>, v: &[i32], out: &mut [i32])
    requires some { 0 < comps }
    requires over { IsOverTable on.now }
    requires whole { length v.now ≡ length on.now.order.now.corner_of_entry * comps }
    requires range { All (λ x. (w.now.low ≤ℤ x) × (x ≤ℤ w.now.high)) v.now }
    requires room { length out.old ≡ length v.now }
    requires can_wrap { CanWrap w.now }
    requires ends { HasEnds w.now }
    ensures corrections { out.new ≡ corrections (parallelogram (surface on.now) comps) w.now v.now }
    ensures restores { restored (parallelogram (surface on.now) comps) w.now out.new ≡ v.now }
    ensures small { All (λ x. (least_correction w.now ≤ℤ x) × (x ≤ℤ greatest_correction w.now)) out.new }
{
    let faces = on.order.faces_across.as_slice();
    for e in 0..faces.len() {
        correct_by_one(w, v, comps, e, faces[e], out);
    }
}

/// The corrections of the values `v` of entries of `comps` components, each predicted by its
/// parallelogram: each of at most half a span, and from them the values are restored. `v` has `comps`
/// values for each entry of the ordered surface. It takes memory for the corrections, and fails only when
/// out of memory.
pub fn correct_parallelogram(
    alloc: Global,
    w: &Wrap,
    comps: u32,
    on: &Ordered<'_>,
    v: &[i32],
) -> Result<Vec<i32>, Memory>
    requires some { 0 < comps }
    requires over { IsOverTable on.now }
    requires whole { length v.now ≡ length on.now.order.now.corner_of_entry * comps }
    requires within { All (λ x. (w.now.low ≤ℤ x) × (x ≤ℤ w.now.high)) v.now }
    ensures corrections { IfOk result (λ c. c.items ≡ corrections (parallelogram (surface on.now) comps) w.now v.now) }
    ensures restores { IfOk result (λ c. restored (parallelogram (surface on.now) comps) w.now c.items ≡ v.now) }
    ensures small { IfOk result (λ c. All (λ x. (least_correction w.now ≤ℤ x) × (x ≤ℤ greatest_correction w.now)) c.items) }
{
    let wrap = w.copy();
    let mut out = vec![in alloc; 0i32; v.len()]?;
    correct_entries(&wrap, comps as usize, on, v, out.as_mut_slice());
    Ok(out)
}
