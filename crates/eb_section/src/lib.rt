//! The connectivity section of an Edgebreaker mesh, standard and valence. The contract above it: what is
//! read is the surface that the section's definition gives, or its first fault, rebuilt by links in a few
//! table calls for each face that its symbols can build; and what is written of a trace is read back with
//! exactly its length. After the Draco Bitstream Specification 2.2, section "Edgebreaker Connectivity".
#![tactic(auto)]

mod blocks;
mod contexts;
mod events;
mod opening;
mod reading;
mod rebuilding;
mod sources;
mod writing;
mod writing_blocks;
mod writing_events;
mod writing_standard;
mod writing_valence;

pub use reading::{EbRead, read_connectivity};
pub use writing::write_connectivity;
