//! The shortest coding of a block of symbols, for whoever would rather wait than send more bytes: of a few codings of the values the
//! first of the shortest, by the bytes themselves. The contract above it: what is written is that coding, it reads back as any block
//! does, and it is at most as long as the one that `symbol_coding` writes. The codings, and the joined bit lengths of one of them, are
//! this project's choice; all are read by Draco Bitstream Specification 2.2, section Symbol Decoding.
#![tactic(auto)]

mod choosing;
mod codings;
mod costs;
mod cuts;
mod joining;
mod laws;

pub use choosing::write_shortest;
pub use laws::{joined_lengths_hold, no_cut_costs_less, the_first_of_the_shortest};
