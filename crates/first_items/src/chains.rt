//! The items of each class, linked in their order.

ghost use Rattle.std.specs.Prelude.{◌≡◌, ℕ, ◌+◌, ◌-◌, ◌<◌, ◌≤◌, ◌^◌, IfOk, length, slice_index, vec_len};
ghost use Rattle.first_items.specs.Chains.{AreLinked, AreFirsts};

use drc_base::Memory;
use std::alloc::Global;

/// The number of no item.
pub const NONE: u32 = u32::MAX;

/// The classes' items in their order.
#[derive(Drop)]
pub struct Chains {
    /// For each class its first item, or a number that is no item's.
    pub firsts: Vec<u32>,
    /// For each item the next one of its class; for the last one a number that is no item's.
    pub nexts: Vec<u32>,
}

/// Links the items of each class, the last item first: `classes` has the class of each item, below `count`. Takes one number an
/// item and one a class. The error is want of memory.
pub fn chains_of(alloc: Global, classes: &[u32], count: u32) -> Result<Chains, Memory>
    requires few { length classes.now < 2 ^ 32 - 1 }
    requires below { (x : ℕ) → x < length classes.now → slice_index classes.now x < count }
    ensures linked { IfOk result (λ chains. AreLinked classes.now chains.nexts.items 0) }
    ensures firsts { IfOk result (λ chains. AreFirsts classes.now chains.firsts.items count 0) }
{
    let mut firsts = vec![in alloc; NONE; count as usize]?;
    let mut nexts = vec![in alloc; NONE; classes.len()]?;
    for done in 0..classes.len() {
        let x = classes.len() - 1 - done;
        let class = classes[x] as usize;
        nexts[x] = firsts[class];
        firsts[class] = x as u32;
    }
    Ok(Chains { firsts, nexts })
}
