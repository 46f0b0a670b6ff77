//! Edgebreaker symbols as bits (Draco Bitstream Specification 2.2, Edgebreaker standard traversal). The
//! contract above it: a symbol is read from the bits that it is written as.
#![tactic(auto)]

mod packing;
mod symbol_reader;

pub use packing::pack;
pub use symbol_reader::SymbolReader;
