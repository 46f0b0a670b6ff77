//! Geometry: meshes and clouds of integer rows, the renumbering of one into another, and their
//! assembling from groups of attributes. The contract above it: a geometry is its heads, its points
//! as rows of integers and its faces as triples of point numbers, within the limits; two geometries
//! are the same by a renumbering exactly where each face (or point) of one stands once in the
//! other, turned at most, with the same integers. Heads follow the Draco Bitstream Specification
//! 2.2; the rest is this project's choice.
#![tactic(auto)]

mod assembling;
mod attributes;
mod bit_sets;
mod clouds;
mod corner_items;
mod counted_rows;
mod geometries;
mod geometry_rules;
mod geometry_views;
mod groups;
mod items;
mod laws;
mod map_reading;
mod mapping;
mod matching;
mod meshes;
mod number_reading;
mod numbering;
mod renumberings;
mod row_filter;
mod row_hash;
mod row_index;
mod row_numbers;
mod row_rules;
mod vertex_items;

pub use assembling::assemble;
pub use clouds::Cloud;
pub use geometries::Geometry;
pub use geometry_views::GeometryView;
pub use groups::AttrGroup;
pub use laws::{
    distinct_rows_are_few, map_text_is_read_again, renumbered_is_a_mesh, same_is_an_equivalence,
};
pub use map_reading::{MapRead, read_map};
pub use mapping::map_text;
pub use matching::{matches, same_face, same_heads, same_point, same_row};
pub use meshes::CornerMesh;
pub use number_reading::read_number;
pub use renumberings::Renumber;
