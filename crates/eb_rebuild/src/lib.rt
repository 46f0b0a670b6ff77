//! Rebuilding a surface from Edgebreaker symbols in reverse (Rossignac 1999; Isenburg and Snoeyink
//! 2001; Draco Bitstream Specification 2.2, Edgebreaker). The contract above it is the trait
//! `Rebuild`: each call gives the next state of the machine, or exactly the fault of its rule.
#![tactic(auto)]

mod built;
mod corner_names;
mod degenerate;
mod joined_names;
mod kept_degrees;
mod kept_sides;
mod link_rebuild;
mod rebuild;
mod side_stack;
mod splits;

pub use built::Built;
pub use link_rebuild::LinkRebuild;
pub use rebuild::Rebuild;
pub use side_stack::SideStack;
pub use splits::{Splits, waiting};
