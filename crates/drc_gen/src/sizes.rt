//! The sizes of generated meshes (this project's choice).

/// The least size.
pub const LEAST_SIZE: u32 = 3;

/// The greatest size: its meshes have at most 1,048,576 points and 524,288 faces.
pub const MOST_SIZE: u32 = 512;
