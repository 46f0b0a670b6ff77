//! Rebuilding a surface from Edgebreaker symbols in reverse with rows in a plain list (Rossignac 1999;
//! Isenburg and Snoeyink 2001; Draco Bitstream Specification 2.2, Edgebreaker). No crate of the program stands
//! on it: by the contract of the trait `Rebuild` it gives the answers that `eb_rebuild::LinkRebuild` gives.
#![tactic(auto)]

mod active_rows;
mod glued_faces;
mod name_lists;
mod named_table;
mod row_rebuild;

pub use row_rebuild::RowRebuild;
