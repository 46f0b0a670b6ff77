//! What a call answers: the statuses of the program `drc`, and one for arrays that are too short.

/// Done.
pub const DONE: u32 = 0;

/// The arguments don't fit each other, or a number names nothing.
pub const BAD_ARGUMENT: u32 = 1;

/// The input is refused: the fault says why.
pub const REFUSED: u32 = 2;

/// Out of memory.
pub const NO_MEMORY: u32 = 5;

/// The stream isn't the geometry: the verdict says what differs first.
pub const NOT_SAME: u32 = 6;

/// An array is too short: the counts say what is needed.
pub const NO_ROOM: u32 = 8;
