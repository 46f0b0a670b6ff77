//! Predictions of attribute values and the wrap transform: corrections of a source to values, and
//! values to corrections. The contract above it: each value is its prediction, clipped and
//! corrected, where a prediction is a function of the values before: by difference, by a parallelogram
//! over the surface, or by the mean of several that flags keep. After the Draco Bitstream
//! Specification 2.2, sections "Prediction Scheme Transforms", "Prediction Difference", "Mesh
//! Parallelogram Prediction" and "Mesh Constrained Multi Parallelogram Prediction".
#![tactic(auto)]

mod corrected;
mod differences;
mod entry;
mod flags;
mod from_source;
mod gathering;
mod laws;
mod multi;
mod multi_from_source;
mod orders;
mod parallelograms;
mod restored;
mod schemes;
mod single;
mod sources;
mod surface;
mod symbols;
mod transforms;
mod wholes;
mod wraps;

pub use corrected::correct;
pub use flags::Flags;
pub use laws::{
    corrections_restore, flags_are_few, predictions_are_named, predictions_are_steps, steps_restore,
};
pub use multi::correct_multi;
pub use orders::Ordered;
pub use restored::restore_with_flags;
pub use schemes::{Behind, Facts, Prediction};
pub use single::correct_parallelogram;
pub use sources::CorrectionSource;
pub use symbols::{symbol_of, symbols_of};
pub use transforms::Transform;
pub use wraps::Wrap;
