//! The face across the side of a corner, by the entries of its corners.
//!
//! The side across is looked up in the list that a table lends, and the entry of each corner there by its
//! class. The face serves where its three entries come before a number.

ghost use Rattle.std.specs.Prelude.{◌≡◌, ℕ, ◌*◌, ◌/◌, ◌<◌, IfSome, List, All, length, get_or};
ghost use Rattle.corner_table.specs.Sides.{Side, side_at};
ghost use Rattle.corner_table.specs.Table.{free_entry};
ghost use Rattle.corner_table.specs.Ordered.{FitTogether, IsBelow, at_corner, entries_by, face_entries, kept_face, only_below, ordered_from};

use crate::corner_lists::FaceAcross;
use crate::entries::FREE;
use crate::side_numbers::{next_number, previous_number};

impl FaceAcross {
    /// A face as an order keeps it, where there is one, and else one whose entries are `FREE`.
    pub fn kept(face: Option<FaceAcross>) -> FaceAcross
        requires { IfSome face (λ t. t.across < free_entry) }
        ensures { kept_face result ≡ face }
    {
        match face {
            None => FaceAcross {
                across: FREE,
                after: FREE,
                before: FREE,
            },
            Some(found) => found,
        }
    }
}

/// The number across a side.
fn number_across(across: &[u32], side: u32) -> u32
    requires { side < length across.now }
    ensures { result ≡ get_or across.now side free_entry }
{
    across[side as usize]
}

/// The entry of a corner, by its class.
fn entry_of(labels: &[u32], entry_of_class: &[u32], corner: u32) -> u32
    requires corner { corner < length labels.now }
    requires classes { All (λ (k : ℕ). k < length entry_of_class.now) labels.now }
    ensures { result ≡ get_or (entries_by labels.now entry_of_class.now) corner 0 }
{
    entry_of_class[labels[corner as usize] as usize]
}

/// The face of a corner, where its entries come before entry `e`. That of the corner itself is tested
/// before the other two are read.
fn face_below(labels: &[u32], entry_of_class: &[u32], e: usize, corner: u32) -> Option<FaceAcross>
    requires few { length labels.now < free_entry }
    requires whole { length labels.now ≡ 3 * (length labels.now / 3) }
    requires corner { corner < length labels.now }
    requires classes { All (λ (k : ℕ). k < length entry_of_class.now) labels.now }
    ensures face { (across : List ℕ) (corners : List Side) → result ≡ only_below e (face_entries (ordered_from across labels.now entry_of_class.now corners) (side_at corner)) }
    ensures below { IfSome result (IsBelow e) }
{
    let across = entry_of(labels, entry_of_class, corner);
    if across as usize >= e {
        return None;
    }
    let after = entry_of(labels, entry_of_class, next_number(corner));
    let before = entry_of(labels, entry_of_class, previous_number(corner));
    if (after as usize) < e && (before as usize) < e {
        Some(FaceAcross {
            across,
            after,
            before,
        })
    } else {
        None
    }
}

/// The face across the side of a corner, where there is one whose three entries come before entry `e`.
/// `across` has for each side the number of the side that it is glued to, as a table lends it, `labels`
/// the class of each corner, and `entry_of_class` the entry of each class; a class without one has a
/// number there that isn't below `e`. It takes no memory.
#[tactic(auto, unfolding(crate::specs::Ordered::at_corner))]
pub fn face_across(
    across: &[u32],
    labels: &[u32],
    entry_of_class: &[u32],
    e: usize,
    corner: u32,
) -> Option<FaceAcross>
    requires fit { FitTogether (length labels.now / 3) across.now labels.now entry_of_class.now }
    requires corner { corner < length labels.now }
    ensures face { (corners : List Side) → result ≡ at_corner (ordered_from across.now labels.now entry_of_class.now corners) e (side_at corner) }
    ensures below { IfSome result (IsBelow e) }
{
    let found = number_across(across, corner);
    if found == FREE {
        return None;
    }
    face_below(labels, entry_of_class, e, found)
}
