//! Numbers for items: each has that of the first item that is like it. The contract above it: items that are told apart by two
//! numbers, or by an earlier number and an integer of 32 bits, have the first one with theirs, found in a few steps for each and by
//! no hash; and the items of each class linked in their order. This is the project's own choice.
#![tactic(auto)]

mod chains;
mod items;
mod numbering;

pub use chains::{Chains, NONE, chains_of};
pub use items::{are_apart, number_items};
pub use numbering::number_pairs;
