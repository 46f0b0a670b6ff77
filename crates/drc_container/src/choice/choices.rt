//! What is chosen of an encoding.

use crate::choice::methods::Method;
use crate::choice::predicts::Predict;

/// How the faces of a sequential mesh are written.
#[derive(Clone, Copy, Debug, PartialEq, Eq)]
pub enum Index {
    /// Each index by itself.
    Plain,
    /// The differences between indices, in a symbol block.
    Packed,
}

/// The order in which Edgebreaker's entries are ordered.
#[derive(Clone, Copy, Debug, PartialEq, Eq)]
pub enum Walk {
    /// Depth first.
    Depth,
    /// By prediction degree, where the entries are those of vertices; else depth first.
    Degree,
}

/// What is chosen of an encoding. Where nothing is chosen the method is Edgebreaker with standard
/// symbols for a mesh and sequential for a cloud, indices are plain, values are predicted by the
/// entry before under the sequential method and by a parallelogram else, and the walk is depth
/// first.
#[derive(Clone, Copy, Debug, PartialEq, Eq)]
pub struct Choice {
    /// How connectivity is coded.
    pub method: Option<Method>,
    /// How the faces of a sequential mesh are written.
    pub index: Option<Index>,
    /// How values are predicted.
    pub predict: Option<Predict>,
    /// The order of Edgebreaker's entries.
    pub walk: Option<Walk>,
    /// Whether values are written as they are, and not in symbol blocks.
    pub plain_values: bool,
}
