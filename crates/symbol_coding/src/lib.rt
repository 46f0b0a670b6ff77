//! Symbol blocks: values in groups of components, coded with a probability table of the values or of the
//! groups' bit lengths. The contract above it: a block is read as its definition says, or refused with
//! its first fault; a written block is the spelling of its definition, and reads back. Draco Bitstream
//! Specification 2.2, section Symbol Decoding; which scheme is written is this project's choice.
#![tactic(auto)]

mod coded;
mod costs;
mod reading;
mod symbols;
mod writing;

pub use coded::precision;
pub use costs::{counts_in, digits_of, length_of_symbols};
pub use reading::{Symbols, open_symbols, read_symbols};
pub use symbols::CodedSymbols;
pub use writing::{put_values, write_coded, write_symbols};
