//! The names of properties that an attribute is known by.

ghost use Rattle.std.specs.Prelude.{◌≡◌, ◌≤◌, ◌<◌, map, IsTrue};
ghost use Rattle.std.specs.List.{list_all};
ghost use Rattle.attr_heads.specs.Usages.{is_usage};
ghost use Rattle.ply_text.specs.NamedHeads.{is_named, stand, run_by, run_of};
ghost use Rattle.ply_text.specs.RunParts.{runs_of, is_short};

use crate::headers::Property;
use crate::words::is_word;
use attr_heads::{COLOUR, GENERIC, NORMAL, POSITION, TEXTURE_COORDINATE};

/// An attribute that is known by names: its usage, and the names of its components.
pub(crate) struct NameRun {
    pub usage: u8,
    pub words: &'static [&'static [u8]],
}

/// The names that an attribute is known by: where two rows fit, the one above is taken (this project's
/// choice).
const NAME_RUNS: [NameRun; 6] = [
    NameRun {
        usage: POSITION,
        words: &[b"x", b"y", b"z"],
    },
    NameRun {
        usage: NORMAL,
        words: &[b"nx", b"ny", b"nz"],
    },
    NameRun {
        usage: COLOUR,
        words: &[b"red", b"green", b"blue", b"alpha"],
    },
    NameRun {
        usage: COLOUR,
        words: &[b"red", b"green", b"blue"],
    },
    NameRun {
        usage: TEXTURE_COORDINATE,
        words: &[b"s", b"t"],
    },
    NameRun {
        usage: TEXTURE_COORDINATE,
        words: &[b"u", b"v"],
    },
];

/// Whether a property has this name and this type.
fn is_named(word: &[u8], dtype: u8, property: &Property) -> bool
    ensures { result ≡ is_named word.now dtype property.now }
{
    is_word(property.name.as_slice(), word) && property.dtype == dtype
}

/// Whether properties of one type with these names stand in front.
#[tactic(auto, using(crate::proofs::Runs::stand_begun, crate::proofs::Runs::stand_goes, crate::proofs::Runs::stand_stops, crate::proofs::Runs::stand_all, crate::proofs::Runs::stand_short))]
fn stand(words: &[&[u8]], dtype: u8, properties: &[Property]) -> bool
    ensures { result ≡ stand (map (λ word. word.now) words.now) dtype properties.now }
{
    if properties.len() < words.len() {
        return false;
    }
    for j in 0..words.len() {
        if !is_named(words[j], dtype, &properties[j]) {
            return false;
        }
    }
    true
}

/// The usage and the components of the attribute in front: by the first row whose names stand there, else
/// generic.
#[tactic(auto, using(crate::proofs::Runs::run_begun, crate::proofs::Runs::run_goes, crate::proofs::Runs::run_stops, crate::proofs::Runs::run_short, crate::proofs::Runs::run_ends))]
fn run_by(runs: &[NameRun], dtype: u8, properties: &[Property]) -> (u8, u8)
    requires { IsTrue (list_all is_short (runs_of runs.now)) }
    ensures run { result ≡ run_by (runs_of runs.now) dtype properties.now }
    ensures some { IsTrue (is_usage result.0) × (0 < result.1) × (result.1 ≤ 4) }
{
    for k in 0..runs.len() {
        let run = &runs[k];
        if stand(run.words, dtype, properties) {
            return (run.usage, run.words.len() as u8);
        }
    }
    (GENERIC, 1)
}

/// The usage and the components of the attribute in front.
#[tactic(auto, unfolding(crate::specs::NamedHeads::run_of))]
pub(crate) fn run_of(dtype: u8, properties: &[Property]) -> (u8, u8)
    ensures run { result ≡ run_of dtype properties.now }
    ensures some { IsTrue (is_usage result.0) × (0 < result.1) × (result.1 ≤ 4) }
{
    run_by(&NAME_RUNS, dtype, properties)
}
