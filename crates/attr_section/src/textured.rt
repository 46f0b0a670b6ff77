//! Reading texture coordinates that are predicted from positions.

ghost use Rattle.std.specs.Prelude.{◌≡◌, ◌*◌, ◌/◌, ◌%◌, ◌≤◌, ◌<◌, IfOk, Err, length, ℕ};
ghost use Rattle.std.specs.Option.{option_map};
ghost use Rattle.drc_base.specs.Profile.{profile_numbered};
ghost use Rattle.drc_base.specs.declared.faults.Fault.{Fault as AnyFault};
ghost use Rattle.drc_base.specs.declared.faults.Refusal.TheVariants as refusal;
ghost use Rattle.drc_bits.specs.Reading.{Gives};
ghost use Rattle.predict.specs.Surfaces.{surface, surface_of, IsOrderedOf, MayBeOrderedOf};
ghost use Rattle.attr_section.specs.TablePositions.{read_in, positions_in};
ghost use Rattle.attr_section.specs.Textured.{is_textured, orientations_at, texture_corrected_at, texture_from, textured_at};
ghost use Rattle.attr_section.specs.Openings.{corrected_opening_at, textured_opening_at};

use crate::flag_lists::bits_of;
use crate::integers::read_integers;
use crate::places::places_on;
use crate::positions::{Positions, ReadPositions, usable};
use crate::predicting::read_transform;
use crate::ranges::read_range;
use drc_base::{Fault, Kind, MAX_VALUES, Profile, Refusal};
use drc_bits::Cursor;
use predict::Ordered;
use rans_binary::BitBlock;
use std::alloc::Global;
use texture_prediction::bits_to_orientations;
use texture_values::restore_texture;

/// The byte of the prediction of texture coordinates from positions (Draco 1.5.5, prediction scheme methods).
pub const TEXTURE_PREDICTION: u8 = 5;

/// The first profile that has it.
pub const TEXTURE_SINCE: u32 = 3;

/// Whether the values whose prediction byte is next are predicted from positions as texture coordinates.
pub fn is_textured(c: &Cursor<'_>, profile: Profile, on: Option<&Ordered<'_>>, comps: u8) -> bool
    ensures { result ≡ is_textured (profile_numbered profile.number) (surface_of (option_map (λ t. t.now) on.entry)) comps c.now }
{
    profile.has(TEXTURE_SINCE)
        && comps == 2
        && on.is_some()
        && c.rest().first() == Some(&TEXTURE_PREDICTION)
}

/// The orientations of so many entries.
#[tactic(auto, unfolding(crate::specs::Textured::orientations_at))]
fn read_orientations(alloc: Global, c: &mut Cursor<'_>, entries: u32) -> Result<Vec<bool>, Refusal>
    ensures { Gives (λ v. v.items) (orientations_at entries c.old) c.new result }
{
    let fault = c.fault(Kind::FlagCount);
    let count = c.get_u32()?;
    if count > entries {
        return Err(Refusal::Fault(fault));
    }
    let block = BitBlock::read(c)?;
    let mut orientations = bits_of(alloc, block, count)?;
    bits_to_orientations(&mut orientations);
    Ok(orientations)
}

/// `n` values over an ordered surface, from positions; their prediction byte stands at `at`.
#[tactic(auto, unfolding(crate::specs::Textured::texture_corrected_at, crate::specs::Openings::corrected_opening_at))]
fn read_texture_corrected(
    alloc: Global,
    c: &mut Cursor<'_>,
    at: u64,
    on: &Ordered<'_>,
    positions: &Positions<'_>,
    n: u32,
) -> Result<Vec<i32>, Refusal>
    requires few { n ≤ MAX_VALUES }
    requires even { n % 2 ≡ 0 }
    requires on { IsOrderedOf (n / 2) on.now }
    ensures item { Gives (λ v. v.items) (texture_corrected_at at (surface on.now) (positions_in positions.now) n c.old) c.new result }
    ensures early { (f : AnyFault) → corrected_opening_at n c.old ≡ Err f → result ≡ Err (refusal.Fault f) }
    ensures len { IfOk result (λ v. length v.items ≡ n) }
{
    let _transform = read_transform(c)?;
    let mut values = read_integers(alloc, c, 2, n)?;
    let orientations = read_orientations(alloc, c, n / 2)?;
    let wrap = read_range(c)?;
    let places = places_on(alloc, positions, on)?;
    match restore_texture(on, &places, &wrap, &orientations, &mut values) {
        Ok(()) => Ok(values),
        Err(kind) => Err(Refusal::Fault(Fault::new(kind, at))),
    }
}

/// `n` texture coordinates whose prediction byte is next, over an ordered surface. `NoPosition` at that byte where none were read that they
/// can be predicted from; `Projection` and `FlagsShort` there where an entry can't be predicted.
#[tactic(auto, unfolding(crate::specs::Textured::textured_at, crate::specs::Openings::textured_opening_at))]
pub fn read_textured(
    alloc: Global,
    c: &mut Cursor<'_>,
    on: Option<&Ordered<'_>>,
    found: ReadPositions<'_>,
    n: u32,
) -> Result<Vec<i32>, Refusal>
    requires few { n ≤ MAX_VALUES }
    requires even { n % 2 ≡ 0 }
    requires on { MayBeOrderedOf (n / 2) (option_map (λ t. t.now) on) }
    ensures item { Gives (λ v. v.items) (textured_at (surface_of (option_map (λ t. t.now) on.entry)) (read_in found.entry) n c.old) c.new result }
    ensures early { (f : AnyFault) → textured_opening_at (surface_of (option_map (λ t. t.now) on.entry)) (read_in found.entry) n c.old ≡ Err f → result ≡ Err (refusal.Fault f) }
    ensures len { IfOk result (λ v. length v.items ≡ n) }
{
    let at = c.place();
    let _byte = c.get_u8()?;
    match (on, usable(&found)) {
        (None, _) => Err(Refusal::Fault(Fault::new(Kind::Prediction, at))),
        (Some(_), None) => Err(Refusal::Fault(Fault::new(Kind::NoPosition, at))),
        (Some(on), Some(positions)) => read_texture_corrected(alloc, c, at, on, positions, n),
    }
}
