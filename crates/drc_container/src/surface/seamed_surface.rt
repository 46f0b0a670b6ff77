//! The surface of a mesh as it is decoded, with the seams of its attributes.

use corner_table::SideTable;
use drc_base::Sequence;

/// The surface of a mesh as it is decoded: the order of its faces, how their sides are glued, and where the seams
/// of its attributes are. Behind the connectivity this is all that the values need of the trace.
#[derive(Debug, Drop)]
pub struct SeamedSurface {
    /// The faces in the order of decoding, each with its turn.
    pub rows: Sequence<(u32, u8)>,
    /// How the sides are glued, by the new numbers of the faces.
    pub sides: SideTable,
    /// For each attribute of each side whether it is a seam, where any pair is one.
    pub flags: Vec<Option<Vec<bool>>>,
}
