//! Bytes, numbers and bits of a stream: a cursor over bytes, varints and bit sequences, each both ways.
//! The contract above it: each read is the item of its definition at its place, or the fault `Short` or
//! `Long` there with the cursor unchanged; a written varint is read back, and written bits are the bits
//! that were put. It follows the Draco Bitstream Specification 2.2, section "Core types"; which varints
//! are too long is this project's choice.
#![tactic(auto)]

mod bit_reader;
mod bit_writer;
mod cursors;
mod varints;

pub use bit_reader::BitReader;
pub use bit_writer::BitWriter;
pub use cursors::Cursor;
pub use varints::{put_var32, put_var64};
