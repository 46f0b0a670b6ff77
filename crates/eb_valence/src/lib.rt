//! Edgebreaker symbols by valence contexts (Draco Bitstream Specification 2.2, Edgebreaker valence
//! traversal). The contract above it: read by the degrees that the rebuilding machine has, the lists of
//! a word give its symbols back.
#![tactic(auto)]

mod context_lists;
mod context_reader;
mod laws;
mod noting;
mod numbers;

pub use context_lists::{CONTEXTS, ContextLists};
pub use context_reader::ContextReader;
pub use laws::contexts_read_back;
pub use noting::contexts_of;
pub use numbers::{NUMBER_CAP, kept_number};
