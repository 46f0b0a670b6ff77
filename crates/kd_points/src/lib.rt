//! Point clouds as a kd-tree, in a file of this project. The contract above it: a cloud is written as
//! the file of its definition; a file is read as the cloud that it means, or its first fault; and what is
//! written is read as the same points in the order of the tree. The file and its tree are this project's
//! choice; the heads of attributes follow the Draco Bitstream Specification 2.2.
#![tactic(auto)]

mod axes;
mod decoding;
mod encoding;
mod extents;
mod head_reading;
mod head_writing;
mod headers;
mod keys;
mod laws;
mod points;
mod refusals;
mod trees;

pub use decoding::kd_decode;
pub use encoding::{kd_bits, kd_encode};
pub use laws::{file_bits_are_counted, files_are_read_again, keys_tell_points, order_is_one};
