//! Surfaces whose faces are in the order in which reverse decoding builds them. Tables: for each side, by its number
//! 3f + k, the number of the side across, and `FREE` where there is none. Rows: for each decoded face the face of the
//! list that it is, and by how much it is turned. Events: those of the walk, in its order.

use corner_table::{Event, FREE};

/// The tetrahedron, whose last face is an interior start face.
pub const TETRAHEDRON_DECODED: [u32; 12] = [5, 10, 8, 7, 11, 0, 9, 3, 2, 6, 1, 4];

/// The ring with a hole.
pub const RING_DECODED: [u32; 18] = [
    5, 17, FREE, 7, FREE, 0, 11, 3, FREE, 13, FREE, 6, 16, 9, FREE, FREE, 12, 1,
];

/// The torus, whose last face is an interior start face.
pub const TORUS_DECODED: [u32; 42] = [
    11, 23, 35, 7, 38, 20, 10, 3, 29, 14, 6, 0, 16, 40, 9, 19, 12, 32, 22, 15, 5, 26, 18, 1, 28,
    41, 21, 31, 24, 8, 34, 27, 17, 37, 30, 2, 39, 33, 4, 36, 13, 25,
];

/// The rows by which the tetrahedron is decoded.
pub const TETRAHEDRON_ROWS: [(u32, u8); 4] = [(3, 0), (2, 1), (1, 2), (0, 1)];

/// The rows by which the torus is decoded.
pub const TORUS_ROWS: [(u32, u8); 14] = [
    (9, 0),
    (6, 2),
    (11, 2),
    (4, 0),
    (12, 2),
    (5, 0),
    (13, 0),
    (1, 1),
    (8, 0),
    (3, 1),
    (10, 1),
    (2, 2),
    (7, 2),
    (0, 1),
];

/// The rows by which the ring is decoded.
pub const RING_ROWS: [(u32, u8); 6] = [(5, 1), (4, 1), (3, 1), (2, 1), (1, 1), (0, 2)];

/// The rows by which the torus and another one beside it are decoded.
pub const TWIN_ROWS: [(u32, u8); 28] = [
    (23, 0),
    (20, 2),
    (25, 2),
    (18, 0),
    (26, 2),
    (19, 0),
    (27, 0),
    (15, 1),
    (22, 0),
    (17, 1),
    (24, 1),
    (16, 2),
    (21, 2),
    (9, 0),
    (6, 2),
    (11, 2),
    (4, 0),
    (12, 2),
    (5, 0),
    (13, 0),
    (1, 1),
    (8, 0),
    (3, 1),
    (10, 1),
    (2, 2),
    (7, 2),
    (0, 1),
    (14, 1),
];

/// The split events of the torus.
pub const TORUS_EVENTS: [Event; 2] = [
    Event {
        source: 11,
        split: 6,
        right: false,
    },
    Event {
        source: 12,
        split: 5,
        right: true,
    },
];
