//! What a choice says of an encoding.

ghost use Rattle.std.specs.Prelude.{◌≡◌};
ghost use Rattle.drc_container.specs.choice.Choice.{method_of, is_sequential, is_valence, is_degree, index_of, is_packed, predict_of, predict_chosen};
ghost use Rattle.drc_container.specs.writing.Chosen.{coding_of};

use crate::choice::choices::{Choice, Index, Walk};
use crate::choice::codings::Coding;
use crate::choice::methods::Method;
use crate::choice::predicts::Predict;
use mesh_model::GeometryView;
use predict::Prediction;

/// The method: Edgebreaker with standard symbols for a mesh and sequential for a cloud, where none is
/// chosen.
fn method_of(g: &GeometryView<'_>, choice: &Choice) -> Method
    ensures { result ≡ method_of g.now choice.now }
{
    match choice.method {
        Some(method) => method,
        None => { if g.is_mesh() { Method::Eb } else { Method::Seq } }
    }
}

/// Whether the method is sequential.
pub fn is_sequential(g: &GeometryView<'_>, choice: &Choice) -> bool
    ensures { result ≡ is_sequential (method_of g.now choice.now) }
{
    match method_of(g, choice) {
        Method::Seq => true,
        Method::Eb | Method::Valence => false,
    }
}

/// Whether symbols are coded by valence.
fn is_valence(g: &GeometryView<'_>, choice: &Choice) -> bool
    ensures { result ≡ is_valence (method_of g.now choice.now) }
{
    match method_of(g, choice) {
        Method::Seq | Method::Eb => false,
        Method::Valence => true,
    }
}

/// Whether entries of vertices are ordered by prediction degree.
fn is_degree(choice: &Choice) -> bool
    ensures { result ≡ is_degree choice.now.walk }
{
    match choice.walk {
        None | Some(Walk::Depth) => false,
        Some(Walk::Degree) => true,
    }
}

/// Whether indices are packed.
pub fn packs(choice: &Choice) -> bool
    ensures { result ≡ is_packed (index_of choice.now) }
{
    match choice.index {
        Some(Index::Packed) => true,
        Some(Index::Plain) | None => false,
    }
}

/// How values are predicted.
pub fn predict_of(g: &GeometryView<'_>, choice: &Choice) -> Predict
    ensures { result ≡ predict_chosen g.now choice.now }
{
    match choice.predict {
        Some(predict) => predict,
        None => {
            if is_sequential(g, choice) {
                Predict::Plain(Prediction::Difference)
            } else {
                Predict::Plain(Prediction::Parallelogram)
            }
        }
    }
}

/// How a geometry is coded by Edgebreaker.
pub fn coding_of(g: &GeometryView<'_>, choice: &Choice) -> Coding
    ensures { result ≡ coding_of g.now choice.now }
{
    Coding {
        valence: is_valence(g, choice),
        degree: is_degree(choice),
        predict: predict_of(g, choice),
        plain: choice.plain_values,
    }
}
