//! The bits of a kd-tree over keys, lists of bits of one length, both ways. The contract above it: the
//! split bits and rest bits are those of the tree of boxes, counted without an order; what is written is
//! read as the keys by key, then by number, and the reader answers the definition on all bits. The tree is
//! this project's choice.
#![tactic(auto)]

mod keys;
mod laws;
mod reading;
mod sorting;
mod writing;

pub use keys::{Keys, bit_in, with_bit};
pub use laws::{bits_are_counted, order_does_not_matter, trees_are_read_again};
pub use reading::read_tree;
pub use sorting::{SortedKeys, sort_keys};
pub use writing::{TreeBits, write_tree};
