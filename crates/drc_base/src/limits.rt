//! The limits of the accepted profile, each tested before room is reserved for what it counts.
//! All of them are this project's choice.

/// The most bytes of input that a command reads.
pub const MAX_INPUT_BYTES: u64 = 0x1000_0000;

/// The most faces of a mesh.
pub const MAX_FACES: u32 = 0x40_0000;

/// The most points of a geometry, declared points, declared vertices, and vertices of an
/// Edgebreaker encoding.
pub const MAX_POINTS: u32 = 0x40_0000;

/// The most attributes of a geometry, and the most attribute data of an Edgebreaker stream.
pub const MAX_ATTRIBUTES: u32 = 16;

/// The most components of one attribute.
pub const MAX_COMPONENTS: u32 = 8;

/// The most coded values: the sum over the attributes of entries times components; also points
/// times the sum of all components.
pub const MAX_VALUES: u32 = 0x400_0000;

/// The most symbols of one probability table.
pub const MAX_TABLE_SYMBOLS: u32 = 0x10_0000;

/// The most points of a cloud that is coded as a kd-tree.
pub const MAX_KD_POINTS: u32 = 0x10_0000;

/// The most values of a cloud that is coded as a kd-tree: points times the sum of all components.
pub const MAX_KD_VALUES: u32 = 0x40_0000;
