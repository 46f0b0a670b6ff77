//! What is chosen of an encoding, by numbers.

ghost use Rattle.std.specs.Prelude.{◌≡◌, ◌==◌, IfSome};
ghost use Rattle.std.specs.List.{list_all};
ghost use Rattle.std.specs.Option.{option_map};
ghost use Rattle.drc_c.specs.Options.{method_numbered, index_numbered, predict_numbered, walk_numbered, flag_numbered, choice_numbered, has_predict, choice_meant};
ghost use Rattle.drc_c.specs.Profiles.{profile_chosen};

use crate::profiles::{has_shapes, profile_chosen};
use drc_base::Profile;
use drc_container::{Choice, Index, Method, Predict, Prediction, Walk};

/// How many numbers options have for what a later version may add.
const SPARE: usize = 2;

/// The number of predictions from positions.
const SHAPE: u32 = 5;

/// What is chosen of an encoding. All zeros choose nothing, so that each is as it is without an option of the
/// program `drc enc`.
#[repr(C)]
#[derive(Clone, Copy, Debug)]
pub struct DrcOptions {
    /// How connectivity is coded: 0 not chosen, 1 sequential, 2 Edgebreaker, 3 Edgebreaker by valence.
    pub method: u32,
    /// How the faces of a sequential mesh are written: 0 not chosen, 1 plain, 2 packed.
    pub index: u32,
    /// How values are predicted: 0 not chosen, 1 not at all, 2 by the entry before, 3 by a parallelogram, 4 by
    /// the mean of several, 5 from positions, which profile 3 has: octahedral values by normals of faces, texture
    /// coordinates by a projection, all others by a parallelogram.
    pub predict: u32,
    /// The order of Edgebreaker's entries: 0 not chosen, 1 depth first, 2 by prediction degree.
    pub walk: u32,
    /// Whether values are written as they are: 0 in symbol blocks, 1 as they are.
    pub plain_values: u32,
    /// The profile of what is written, and of recoding that in which the old stream is read: 2 or 3, and 0 is 2.
    pub profile: u32,
    /// Zeros, for what a later version may add.
    pub spare: [u32; SPARE],
}

// As the header has it.
const _: () = prove!(size_of::<DrcOptions>() == 32);

/// The method of a number.
fn method_numbered(number: u32) -> Option<Option<Method>>
    ensures { result ≡ method_numbered number }
{
    match number {
        0 => Some(None),
        1 => Some(Some(Method::Seq)),
        2 => Some(Some(Method::Eb)),
        3 => Some(Some(Method::Valence)),
        _ => None,
    }
}

/// The index method of a number.
fn index_numbered(number: u32) -> Option<Option<Index>>
    ensures { result ≡ index_numbered number }
{
    match number {
        0 => Some(None),
        1 => Some(Some(Index::Plain)),
        2 => Some(Some(Index::Packed)),
        _ => None,
    }
}

/// The prediction of a number.
fn predict_numbered(number: u32) -> Option<Option<Predict>>
    ensures { result ≡ predict_numbered number }
{
    match number {
        0 => Some(None),
        1 => Some(Some(Predict::Plain(Prediction::Off))),
        2 => Some(Some(Predict::Plain(Prediction::Difference))),
        3 => Some(Some(Predict::Plain(Prediction::Parallelogram))),
        4 => Some(Some(Predict::Plain(Prediction::Multi))),
        5 => Some(Some(Predict::Shape)),
        _ => None,
    }
}

/// The walk of a number.
fn walk_numbered(number: u32) -> Option<Option<Walk>>
    ensures { result ≡ walk_numbered number }
{
    match number {
        0 => Some(None),
        1 => Some(Some(Walk::Depth)),
        2 => Some(Some(Walk::Degree)),
        _ => None,
    }
}

/// The truth value of a number.
pub fn flag_numbered(number: u32) -> Option<bool>
    ensures { result ≡ flag_numbered number }
{
    match number {
        0 => Some(false),
        1 => Some(true),
        _ => None,
    }
}

/// The choice that options mean, where each number that says how to code names something.
#[tactic(auto, unfolding(crate::specs::Options::choice_numbered))]
fn choice_numbered(options: &DrcOptions) -> Option<Choice>
    ensures { result ≡ choice_numbered options.now }
{
    let method = method_numbered(options.method)?;
    let index = index_numbered(options.index)?;
    let predict = predict_numbered(options.predict)?;
    let walk = walk_numbered(options.walk)?;
    let plain_values = flag_numbered(options.plain_values)?;
    Some(Choice {
        method,
        index,
        predict,
        walk,
        plain_values,
    })
}

/// Whether numbers are zeros.
fn are_zeros(numbers: &[u32]) -> bool
    ensures { result ≡ list_all (λ n. n == 0) numbers.now }
{
    numbers.iter().all(|number| *number == 0)
}

/// Whether a profile has the prediction of a number.
fn has_predict(profile: Profile, number: u32) -> bool
    ensures { result ≡ has_predict profile.number number }
{
    has_shapes(profile) || number != SHAPE
}

/// The choice that options mean and the profile that they choose, where each number names something that the profile has.
#[tactic(auto, unfolding(crate::specs::Options::choice_meant))]
pub fn options_meant(options: &DrcOptions) -> Option<(Choice, Profile)>
    ensures choice { option_map (λ o. o.0) result ≡ choice_meant options.now }
    ensures profile { IfSome result (λ o. o.1.number ≡ profile_chosen options.now.profile) }
{
    let profile = profile_chosen(options.profile)?;
    if !has_predict(profile, options.predict) || !are_zeros(&options.spare) {
        return None;
    }
    let choice = choice_numbered(options)?;
    Some((choice, profile))
}
