//! Laws of connectivity: indices of faces, and the section of a traced surface, as they are written, are read as what they were made
//! of, whatever follows them. They are laws over definitions: no function of this crate does anything.
#![tactic(auto)]

mod laws;

pub use laws::{connectivity_is_read, indices_are_read};
