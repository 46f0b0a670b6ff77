//! The values of an attribute.

use drc_base::Sequence;

/// The coded values of an attribute, entry after entry, each of as many integers as the attribute
/// has components.
#[derive(Debug, Drop)]
pub struct Values {
    /// The values.
    pub values: Sequence<i32>,
    /// How they are predicted, or are asked to be where they are written, by the number of the prediction: -2 not at all, 0 by the
    /// difference to the entry before, 1 by a parallelogram, 4 by the mean of parallelograms that flags choose, 5 as texture
    /// coordinates from positions, 6 as octahedral normals by those of the faces (Draco Bitstream Specification 2.2, section
    /// "Prediction Decoder"; Draco 1.5.5, prediction scheme methods).
    pub predict: i8,
    /// The place of the prediction byte that was read; writing doesn't look at it.
    pub at: u64,
}
