//! Laws of the entropy codings: a table, a block of symbols and a block of bits, as they are written, are read as what they were
//! made of, whatever follows them. They are laws over definitions: no function of this crate does anything.
#![tactic(auto)]

mod laws;

pub use laws::{bit_blocks_are_read, symbol_blocks_are_read, tables_are_read};
