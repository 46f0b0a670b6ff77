//! Triangles glued side to side: a corner table (after Rossignac 1999), the types that a walk over it
//! notes, and the count of table calls. Contracts see a table as its number of faces and the gluing
//! of its sides; the fans of corners round each vertex follow from the gluing.
#![tactic(auto)]

mod corner_lists;
mod entries;
mod faces_across;
mod labels;
mod laws;
mod linked_table;
mod links;
mod renumbering;
mod side_numbers;
mod side_table;
mod steps;
mod symbols;

pub use corner_lists::{Classes, FaceAcross, Order};
pub use entries::FREE;
pub use faces_across::face_across;
pub use laws::{
    a_fan_is_one_walk, fans_end_once, gluing_joins_fans, links_are_a_permutation,
    meeting_is_one_fan, pairs_have_one_bit_each, prefixes_have_gaps, renumbering_keeps_fans,
    swings_are_inverse,
};
pub use linked_table::LinkedTable;
pub use side_numbers::{next_number, number_of, previous_number, side_with};
pub use side_table::SideTable;
pub use steps::Steps;
pub use symbols::{Event, Symbol};
