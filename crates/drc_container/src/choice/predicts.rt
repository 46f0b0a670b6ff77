//! What is chosen of the predictions of values, and what it asks of each attribute.

ghost use Rattle.std.specs.Prelude.{◌≡◌};
ghost use Rattle.drc_container.specs.choice.Predicts.{predict_word, predicts, plain_of, square_of, takes_texture, has_texture, asked};

use attr_heads::{Head, TEXTURE_COORDINATE};
use attr_section::{SquarePrediction, TEXTURE_PREDICTION};
use predict::Prediction;

/// What is chosen of the predictions of values: one word for all attributes.
#[derive(Clone, Copy, Debug, PartialEq, Eq)]
pub enum Predict {
    /// Each component by this prediction, from the values of its own attribute. Octahedral values are predicted
    /// by the normals of the faces where this one needs a surface, by the entry before where it corrects
    /// otherwise, and else not at all.
    Plain(Prediction),
    /// By the shape of the surface: octahedral values by the normals of the faces, texture coordinates by the
    /// projection from positions, and all others by one parallelogram.
    Shape,
}

impl Predict {
    /// All that can be chosen.
    pub fn all() -> [Predict; 5]
        ensures { result ≡ predicts }
    {
        [
            Predict::Plain(Prediction::Off),
            Predict::Plain(Prediction::Difference),
            Predict::Plain(Prediction::Parallelogram),
            Predict::Plain(Prediction::Multi),
            Predict::Shape,
        ]
    }

    /// Its word on the command line.
    pub fn word(self) -> &'static str
        ensures { result.now ≡ predict_word self }
    {
        match self {
            Predict::Plain(prediction) => prediction.word(),
            Predict::Shape => "shape",
        }
    }

    /// The prediction of values that are predicted component by component.
    pub fn plain(self) -> Prediction
        ensures { result ≡ plain_of self }
    {
        match self {
            Predict::Plain(prediction) => prediction,
            Predict::Shape => Prediction::Parallelogram,
        }
    }

    /// Whether texture coordinates are predicted from positions.
    pub fn takes_texture(self) -> bool
        ensures { result ≡ takes_texture self }
    {
        match self {
            Predict::Plain(_) => false,
            Predict::Shape => true,
        }
    }
}

/// The prediction of octahedral values beside one of values component by component.
fn square_of(plain: Prediction) -> SquarePrediction
    ensures { result ≡ square_of plain }
{
    let facts = plain.facts();
    if facts.needs_surface {
        SquarePrediction::Normals
    } else if facts.corrects {
        SquarePrediction::Difference
    } else {
        SquarePrediction::Off
    }
}

/// Whether an attribute without a square has texture coordinates: pairs of the usage of these.
fn has_texture(head: &Head) -> bool
    ensures { result ≡ has_texture head.now }
{
    head.usage == TEXTURE_COORDINATE && head.comps == 2
}

/// The number of the prediction that is asked of an attribute: its byte with a sign.
#[tactic(auto, unfolding(crate::specs::choice::Predicts::asked))]
pub fn asked(predict: Predict, head: &Head) -> i8
    ensures { result ≡ asked predict head.now }
{
    if head.octa.is_some() {
        square_of(predict.plain()).code()
    } else if predict.takes_texture() && has_texture(head) {
        TEXTURE_PREDICTION.cast_signed()
    } else {
        predict.plain().code()
    }
}
