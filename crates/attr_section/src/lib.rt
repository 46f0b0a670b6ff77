//! Attributes of a stream: the heads of their decoders and their values. The contract above it: what
//! is read is the attribute part of its definition at the cursor's place, or its first fault, and
//! what is written is read back with exactly its length. The values of an Edgebreaker stream stand on the
//! ordered surface. After the Draco Bitstream Specification 2.2, sections "Attributes Decoder",
//! "Sequential Attributes" and "Prediction Decoder".
#![tactic(auto)]

mod behind;
mod bounded;
mod coded_integers;
mod correcting;
mod decoder_heads;
mod decoder_writing;
mod flag_lists;
mod flag_writing;
mod head_items;
mod head_reading;
mod head_writing;
mod integer_writing;
mod integers;
mod laws;
mod links;
mod listed;
mod places;
mod positions;
mod predicted_writing;
mod predicting;
mod quant_writing;
mod quants;
mod ranges;
mod square_predictions;
mod squared_reading;
mod squared_writing;
mod textured;
mod textured_writing;
mod value_reading;
mod value_writing;
mod values;

pub use decoder_heads::DecoderHead;
pub use decoder_writing::write_decoder;
pub use head_reading::read_heads;
pub use head_writing::write_heads;
pub use laws::{flags_are_few, predictions_are_accepted};
pub use links::POSITION_ID;
pub use positions::{Positions, ReadPositions, with_attribute};
pub use predict::{Ordered, Prediction};
pub use ranges::range_of;
pub use square_predictions::SquarePrediction;
pub use textured::TEXTURE_PREDICTION;
pub use value_reading::read_decoder;
pub use values::Values;
