//! Laws of attributes: heads and values, as they are written, are read as what they were made of, whatever follows them. They are
//! laws over definitions: no function of this crate does anything.
#![tactic(auto)]

mod laws;

pub use laws::{decoders_are_read, heads_are_read, parts_are_read, values_are_read};
