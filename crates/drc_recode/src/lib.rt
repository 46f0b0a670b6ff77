//! A stream written in another way, and the first order again. The contract above it: what is written means
//! the geometry of the stream that was read, by rows that are given beside it; and such rows bring the
//! faces of a mesh, or the points of a cloud, back into the order that they had. All of it is this project's
//! choice.
#![tactic(auto)]

mod composing;
mod inverting;
mod laws;
mod packing;
mod putting_back;
mod recoding;
mod reordering;
mod restoring;

pub use composing::compose;
pub use inverting::invert;
pub use laws::the_first_order_comes_back;
pub use packing::decode_packed;
pub use recoding::recode;
pub use restoring::restore;
