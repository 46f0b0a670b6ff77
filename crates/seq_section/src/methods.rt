//! How the indices of a sequential mesh are coded (Draco Bitstream Specification 2.2, section
//! "Sequential Connectivity").

/// All in one block of symbols, each by its difference from the one before.
pub const PACKED: u8 = 0;

/// Each by itself.
pub const PLAIN: u8 = 1;
