//! Surfaces by the pairs of sides that are glued, each by its number 3f + k.

/// A tetrahedron, of four faces.
pub const TETRAHEDRON_PAIRS: [(u32, u32); 6] = [(0, 5), (1, 10), (2, 8), (3, 7), (4, 11), (6, 9)];

/// The torus of fourteen faces, in the order of its list of faces.
pub const TORUS_PAIRS: [(u32, u32); 21] = [
    (0, 25),
    (1, 23),
    (2, 36),
    (3, 28),
    (4, 26),
    (5, 39),
    (6, 31),
    (7, 29),
    (8, 21),
    (9, 34),
    (10, 32),
    (11, 24),
    (12, 37),
    (13, 35),
    (14, 27),
    (15, 40),
    (16, 38),
    (17, 30),
    (18, 22),
    (19, 41),
    (20, 33),
];
