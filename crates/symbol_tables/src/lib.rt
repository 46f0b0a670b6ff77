//! Probability tables of symbols: how many slots each symbol has, for counts and in a stream. The
//! contract above it: a table is a list of intervals that fill all slots, and a written table is read
//! back. It follows the Draco Bitstream Specification 2.2, section Symbol Decoding; which probabilities
//! are written for counts is this project's choice.
#![tactic(auto)]

mod counts;
mod laws;
mod reading;
mod slots;
mod table;
mod writing;

pub use counts::{greatest_in, used_in};
pub use laws::every_spelling_is_read;
pub use table::Table;
