//! A range coder by asymmetric numeral systems, for symbols whose intervals of slots the caller
//! knows. The contract above it: what is pushed is pulled, the last pushed first. It follows the
//! Draco Bitstream Specification 2.2, section Rans Decoding.
#![tactic(auto)]

mod decoder;
mod encoder;
mod ends;
mod slots;

pub use decoder::Decoder;
pub use encoder::Encoder;
pub use ends::{end_bytes, first_state, refill};
