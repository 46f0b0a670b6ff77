//! The connectivity of sequential meshes: faces as indices of points, plain or packed. The contract
//! above it: reading gives the section's item or its first fault, and written indices, followed by
//! any bytes, are read back. After the Draco Bitstream Specification 2.2, section "Sequential
//! Connectivity".
#![tactic(auto)]

mod methods;
mod packed;
mod plain;
mod plain_writing;
mod quick;
mod reading;
mod writing;

pub use reading::{SeqRead, read_indices};
pub use writing::write_indices;
