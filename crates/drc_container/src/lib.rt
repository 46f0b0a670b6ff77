//! A whole `.drc` stream, both ways. The contract above it: decoding gives exactly the geometry that
//! the bytes mean, or their first fault; encoding gives exactly the bytes that a choice fixes, which
//! mean the geometry that was given and are coded as chosen, or the first fault of the two. After the
//! Draco Bitstream Specification 2.2, section "Draco Decoder"; the stream of clouds and what the
//! encoder chooses are this project's profile.
#![tactic(auto)]

mod choice;
mod headers;
mod laws;
mod reading;
mod surface;
mod writing;

pub use choice::choices::{Choice, Index, Walk};
pub use choice::methods::Method;
pub use choice::predicts::Predict;
pub use laws::{
    encodable_meshes_are_encoded, old_files_keep_their_meaning, what_is_read_is_a_geometry,
};
pub use predict::Prediction;
pub use reading::decoding::{decode, decode_whole};
pub use reading::info::{AttrInfo, Decoded, StreamInfo};
pub use surface::carried_surfaces::carried_surface;
pub use surface::turned_meshes::renumbered_mesh;
pub use writing::encoding::{encode, encode_view};
