//! The first side of a surface that is glued otherwise than in another.

ghost use Rattle.std.specs.Prelude.{◌≡◌, ◌*◌, ◌<◌, ◌^◌, get_or};
ghost use Rattle.corner_table.specs.Table.{free_entry, glued_in, gluing_of};
ghost use Rattle.corner_table.specs.Sides.{side_at};
ghost use Rattle.drc_verify.specs.SideTests.{same_partner, first_other};

use corner_table::{FREE, SideTable, Steps};
use std::marker::Brand;
use std::sync::ledger::{Blank, Ledger};

/// The entry of a side, which is free where the list has none.
fn entry_of(entries: &[u32], side: u32) -> u32
    ensures { result ≡ get_or entries.now side free_entry }
{
    if (side as usize) < entries.len() {
        entries[side as usize]
    } else {
        FREE
    }
}

/// Whether a side has the same entry in two lists, which is the same partner, or none.
#[tactic(auto, using(crate::proofs::SidesDecided::partners_by_entries))]
fn is_alike(a: &[u32], b: &[u32], side: u32) -> bool
    ensures { result ≡ same_partner (glued_in a.now (side_at side)) (glued_in b.now (side_at side)) }
{
    entry_of(a, side) == entry_of(b, side)
}

/// The first of so many sides whose partners differ.
fn first_difference(a: &[u32], b: &[u32], sides: u32) -> Option<u64>
    ensures { result ≡ first_other sides (glued_in a.now) (glued_in b.now) }
{
    for side in 0..sides {
        if !is_alike(a, b, side) {
            return Some(side as u64);
        }
    }
    None
}

/// The first side of `a` that is glued otherwise in `b`, under a count of calls that nothing else takes
/// part in.
fn counted_difference<L: Ledger>(a: &SideTable, b: &SideTable, blank: Blank) -> Option<u64>
    requires name { blank.name ≡ L.name }
    requires parts { blank.parts ≡ L.parts }
    requires some { 0 < L.parts }
    ensures { result ≡ first_other (3 * a.now.faces) (gluing_of a.now) (gluing_of b.now) }
{
    let sides = 3 * a.face_count();
    let mut steps = Steps::<L>::new(blank);
    let first = a.across(&mut steps);
    let second = b.across(&mut steps);
    first_difference(first, second, sides)
}

/// The number 3f + k of the first side of `a` whose partner, or lack of one, isn't the same in `b`.
pub(crate) fn other_side(a: &SideTable, b: &SideTable) -> Option<u64>
    ensures { result ≡ first_other (3 * a.now.faces) (gluing_of a.now) (gluing_of b.now) }
{
    counted_difference::<Brand>(a, b, Blank::new(1))
}
