//! How a mesh is coded by Edgebreaker.

use crate::choice::predicts::Predict;

/// How a mesh is coded by Edgebreaker.
#[derive(Clone, Copy, Debug, PartialEq, Eq)]
pub struct Coding {
    /// Whether symbols are coded by valence, and not as standard symbols.
    pub valence: bool,
    /// Whether entries of vertices are ordered by prediction degree, and not depth first.
    pub degree: bool,
    /// How values are predicted.
    pub predict: Predict,
    /// Whether values are written as they are, and not in symbol blocks.
    pub plain: bool,
}
