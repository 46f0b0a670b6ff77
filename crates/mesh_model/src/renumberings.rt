//! How the faces of one mesh, or the points of one cloud, stand in another.

use drc_base::Sequence;

/// One row for each face of the other mesh: the face that it is and its turn, so that corner k of
/// the other's face i is corner k + turn, modulo 3, of that face. For clouds a row is the point and
/// 0.
#[derive(Debug, Drop)]
pub struct Renumber {
    /// The rows (face, turn) or (point, 0).
    pub rows: Sequence<(u32, u8)>,
}
