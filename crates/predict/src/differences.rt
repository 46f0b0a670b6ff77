//! Prediction by the difference to the entry before.

ghost use Rattle.std.specs.Prelude.{◌≡◌, ◌<◌, ◌≤ℤ◌, map, IfOk};
ghost use Rattle.std.specs.List.{All};
ghost use Rattle.predict.specs.Symbols.{zigzag_of};
ghost use Rattle.predict.specs.Restored.{corrections, entry_before};

use crate::symbols::symbol_of;
use crate::wraps::Wrap;
use drc_base::Memory;
use std::alloc::Global;

/// The symbols of the corrections of the values `v` of entries of `comps` components, each of at most half a
/// span, from which the values are restored. The corrections themselves are not kept.
pub fn correct_difference(
    alloc: Global,
    w: &Wrap,
    comps: u32,
    v: &[i32],
) -> Result<Vec<u32>, Memory>
    requires some { 0 < comps }
    requires within { All (λ x. (w.now.low ≤ℤ x) × (x ≤ℤ w.now.high)) v.now }
    ensures { IfOk result (λ s. s.items ≡ map zigzag_of (corrections (entry_before comps) w.now v.now)) }
{
    let wrap = w.copy();
    let comps = comps as usize;
    let firsts = comps.min(v.len());
    let mut symbols = Vec::with_capacity(alloc, v.len())?;
    for i in 0..firsts {
        symbols.push_reserved(symbol_of(wrap.correction(0, v[i])));
    }
    for k in firsts..v.len() {
        symbols.push_reserved(symbol_of(wrap.correction(v[k - comps], v[k])));
    }
    Ok(symbols)
}
