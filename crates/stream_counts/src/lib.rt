//! What a stream declares before its data: whether it is a mesh, and how many faces and points. The contract above it: these
//! are the numbers by which the sections of the stream are read, or the stream's first fault, and no memory is taken for them.
//! After the Draco Bitstream Specification 2.2, sections "Header", "Sequential Connectivity" and "Edgebreaker Connectivity".
#![tactic(auto)]

mod counts;
mod headers;
mod laws;
mod openings;

pub use counts::{DeclaredCounts, declared_counts};
pub use laws::declared_faults_come_first;
