//! Blocks of bits, coded by their common probability. The contract above it: a block is a list of
//! bits, whatever bytes follow it. It follows the Draco Bitstream Specification 2.2, section Rans
//! Decoding; which probability is written is this project's choice.
#![tactic(auto)]

mod block_reader;
mod block_writer;
mod laws;

pub use block_reader::BitBlock;
pub use block_writer::write_block;
pub use laws::bits_have_numbers;
