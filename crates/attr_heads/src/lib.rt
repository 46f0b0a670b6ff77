//! What attributes are: their heads, the data types of their integers, and the codings that a stream
//! has for them, each type and each coding by its row of one table. The contract above it: heads pass
//! exactly where their definition finds no fault, and the head of an attribute is read as its item.
//! Everything that asks which types, usages, codings or bits are accepted asks here. It follows the
//! Draco Bitstream Specification 2.2, section "Attributes Decoder"; what is accepted is this project's
//! choice.
#![tactic(auto)]

mod bounds;
mod codings;
mod data_types;
mod head_reading;
mod head_writing;
mod heads;
mod octahedra;
mod quants;
mod usages;

pub use bounds::Bounds;
pub use codings::{AtEnd, Coding, CodingFacts, FixedComponents, coded_head};
pub use data_types::{DataType, TypeFacts, greatest_of, is_float, is_integer, is_type, least_of};
pub use head_reading::{read_bare_head, read_quant_bits, read_square_bits};
pub use head_writing::put_bare_head;
pub use heads::{Head, copies_of, has_comps, row_width, test_heads};
pub use octahedra::{
    MAX_OCTAHEDRAL_BITS, MIN_OCTAHEDRAL_BITS, OCTAHEDRAL_COMPONENTS, OCTAHEDRAL_INTEGERS,
    OCTAHEDRAL_SINCE, are_octahedral_bits, square_bounds,
};
pub use quants::{MAX_QUANT_BITS, Quant, are_quant_bits};
pub use usages::{COLOUR, GENERIC, NORMAL, POSITION, TEXTURE_COORDINATE, is_usage};
