//! The sides of a table by their numbers.

ghost use Rattle.std.specs.Prelude.{◌≡◌, ◌*◌, ◌<◌, ◌≤◌, ◌↔◌, IsTrue, length, replicate, true, IfOk, slice_index_or};
ghost use Rattle.drc_base.specs.declared.limits.TheConstants.{MAX_FACES as most_faces};
ghost use Rattle.corner_table.specs.Sides.{IsGluing};
ghost use Rattle.corner_table.specs.Table.{glued_in, free_entry};
ghost use Rattle.seams.specs.Pairs.{TellsLater};

use corner_table::{SideTable, Steps};
use drc_base::Memory;
use std::alloc::Global;
use std::marker::Brand;
use std::sync::ledger::{Blank, Ledger};

/// The entries of a table, under a count of calls that nothing else takes part in.
fn entries_of<'t, L: Ledger>(t: &'t SideTable, blank: Blank) -> &'t [u32]
    requires name { blank.name ≡ L.name }
    requires parts { blank.parts ≡ L.parts }
    requires some { 0 < L.parts }
    ensures { result.now ≡ t.now.entries }
{
    let mut steps = Steps::<L>::new(blank);
    t.across(&mut steps)
}

/// For each side the number of the side across.
pub(crate) fn sides_across(t: &SideTable) -> &[u32]
    ensures entries { result.now ≡ t.now.entries }
{
    entries_of::<Brand>(t, Blank::new(1))
}

/// Whether the entry of a side is the number of a later side. One more than the entry of a free side wraps
/// to 0, so that one comparison shows that the side is glued, and that the other one is later.
fn is_later(entry: u32, side: u32) -> bool
    requires { side < free_entry }
    ensures { IsTrue result ↔ ((side < entry) × (entry < free_entry)) }
{
    entry.wrapping_add(1) > side + 1
}

/// The number of the side across a side, where that side is glued and lies in the lesser face, so that it
/// has the bit of the pair.
pub(crate) fn later_side(across: &[u32], faces: u32, side: u32) -> Option<u32>
    requires few { faces ≤ most_faces }
    requires gluing { IsGluing faces (glued_in across.now) }
    requires room { 3 * faces ≤ length across.now }
    requires side { side < 3 * faces }
    ensures { TellsLater faces (glued_in across.now) side result }
{
    let other = across[side as usize];
    if is_later(other, side) {
        return Some(other);
    }
    None
}

/// The flag of a side.
pub(crate) fn flag_of(flags: &[bool], side: u32) -> bool
    requires { side < length flags.now }
    ensures { result ≡ slice_index_or flags.now side true }
{
    flags[side as usize]
}

/// A flag for each side, all of them set.
pub(crate) fn all_set(alloc: Global, sides: usize) -> Result<Vec<bool>, Memory>
    ensures { IfOk result (λ v. v.items ≡ replicate sides true) }
{
    Ok(vec![in alloc; true; sides]?)
}
