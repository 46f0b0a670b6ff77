//! Seams of an attribute and its classes of corners, for decoder and encoder. The contract above it: seam
//! bits say which pairs of a surface are seams, the same flags as the bits were made of; a class is what
//! is connected round a vertex once the seams are cut, and on a class of a mesh's own seams the attribute
//! has one value. It follows the Draco Bitstream Specification 2.2, section Edgebreaker Connectivity
//! (attribute seams); which pairs of a mesh are seams is this project's choice.
#![tactic(auto)]

mod cutting;
mod differences;
mod laws;
mod reading;
mod sides;
mod writing;

pub use cutting::{classes, unseamed};
pub use differences::seams_of;
pub use laws::{bits_tell_seams, classes_are_chains, classes_have_one_value};
pub use reading::read_seams;
pub use writing::seam_bits;
