//! Laws of streams: what is written of a geometry is bytes, means the geometry, and is laid out as was chosen; and whatever a
//! stream means in a profile is a geometry, whose text is read as the geometry there. They are laws over definitions: no
//! function of this crate changes or answers anything.
#![tactic(auto)]

mod heads;
mod laws;
mod meanings;

pub use laws::{
    each_geometry_is_written, what_is_written_is_bytes, what_is_written_means_the_geometry,
};
pub use meanings::{every_meaning_is_a_geometry, every_meaning_is_a_text};
