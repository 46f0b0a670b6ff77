//! Prediction of normals by the faces round a vertex. The contract above it: for each entry the sum of the normals of the faces at its
//! corners, to 64 bits, and of such a sum the direction on an octahedron. It follows Draco 1.5.5,
//! MeshPredictionSchemeGeometricNormalPredictorArea and OctahedronToolBox; that sums and products wrap at 64 bits is this project's choice.
#![tactic(auto)]

mod directions;
mod normal_sums;

pub use directions::{direction_of, opposite};
pub use normal_sums::add_normals;
