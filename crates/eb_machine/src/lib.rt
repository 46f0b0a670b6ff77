//! The machine that rebuilds a surface from Edgebreaker symbols in reverse (Rossignac 1999; Isenburg and Snoeyink
//! 2001; Draco Bitstream Specification 2.2, Edgebreaker), and its laws: the machine whose vertices are fans and the one
//! that names its vertices, as the format describes it, give the same answers. Definitions, and calls that do nothing
//! whose contracts are the laws.
#![tactic(auto)]

mod beside;
mod laws;

pub use beside::Beside;
pub use laws::{
    closes_take_one_side_each, made_are_names_and_splits, names_are_fans,
    one_face_more_keeps_names, rows_are_one_each,
};
