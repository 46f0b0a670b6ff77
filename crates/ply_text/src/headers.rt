//! What the header of a PLY text declares.

use attr_heads::Head;
use drc_base::Sequence;

/// The header of a PLY text (PLY 1.0, in this project's profile).
#[derive(Debug, Drop)]
pub struct Header {
    /// The attributes, 1 to 16: those of the comment lines, else those that the names of the
    /// properties give.
    pub heads: Sequence<Head>,
    /// The number of points.
    pub vertices: u32,
    /// The number of faces of a mesh; a cloud has no element of faces.
    pub faces: Option<u32>,
    /// The data type, 1 to 6, of each property of a point.
    pub types: Sequence<u8>,
    /// The data types of a face's count and indices, where there is an element of faces.
    pub list: Option<(u8, u8)>,
    /// The number of the line after `end_header`, from 1.
    pub body_line: u64,
}

/// A property of a point: its data type, 1 to 6, and its name.
#[derive(Debug, Drop)]
pub(crate) struct Property {
    pub dtype: u8,
    pub name: Sequence<u8>,
}
