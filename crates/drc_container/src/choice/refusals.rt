//! Which geometries and choices are refused.

ghost use Rattle.std.specs.Prelude.{◌≡◌, ◌<◌, ◌&&◌, length, position, not};
ghost use Rattle.std.specs.List.{zip};
ghost use Rattle.attr_heads.specs.FirstFault.{Tests, unless};
ghost use Rattle.mesh_model.specs.Contents.{heads_in};
ghost use Rattle.attr_section.specs.Values.{can_wrap};
ghost use Rattle.attr_section.specs.WrittenParts.{range_of};
ghost use Rattle.drc_container.specs.choice.CanCode.{wraps};
ghost use Rattle.drc_container.specs.choice.Refused.{choice_fault, empty_fault, position_fault, early_fault, chooses_surface, begins_with_position, range_fault};

use crate::choice::choices::Choice;
use crate::choice::choosing::is_sequential;
use attr_heads::Head;
use attr_section::{Values, range_of};
use drc_base::{Fault, Kind};
use mesh_model::GeometryView;
use predict::Prediction;

/// A fault of this kind with this number, where a test doesn't hold.
pub fn unless(holds: bool, kind: Kind, at: u64) -> Result<(), Fault>
    ensures { Tests (unless holds kind at) result }
{
    if holds {
        Ok(())
    } else {
        Err(Fault::new(kind, at))
    }
}

/// Whether a prediction that needs a surface is chosen.
fn chooses_surface(choice: &Choice) -> bool
    ensures { result ≡ chooses_surface choice.now.predict }
{
    match choice.predict {
        None => false,
        Some(predict) => predict.plain().facts().needs_surface,
    }
}

/// The first fault of a choice for this geometry.
fn test_choice(g: &GeometryView<'_>, choice: &Choice) -> Result<(), Fault>
    ensures { Tests (choice_fault g.now choice.now) result }
{
    let is_mesh = g.is_mesh();
    let sequential = is_sequential(g, choice);
    unless(is_mesh || sequential, Kind::Choice, 0)?;
    unless(
        choice.index.is_none() || (is_mesh && sequential),
        Kind::Choice,
        1,
    )?;
    unless(!(chooses_surface(choice) && sequential), Kind::Choice, 2)?;
    unless(choice.walk.is_none() || !sequential, Kind::Choice, 3)
}

/// The fault of a geometry of which nothing is encoded.
fn test_empty(g: &GeometryView<'_>, choice: &Choice) -> Result<(), Fault>
    ensures { Tests (empty_fault g.now choice.now) result }
{
    let count = if is_sequential(g, choice) {
        g.point_count()
    } else {
        g.face_count()
    };
    unless(count > 0, Kind::Empty, 0)
}

/// Whether the first attribute is a position.
fn begins_with_position(heads: &[Head]) -> bool
    ensures { result ≡ begins_with_position heads.now }
{
    match heads {
        [] => false,
        [first, ..] => first.usage == 0,
    }
}

/// The fault of a geometry without positions.
fn test_position(g: &GeometryView<'_>, choice: &Choice) -> Result<(), Fault>
    ensures { Tests (position_fault g.now choice.now) result }
{
    let holds = is_sequential(g, choice) || begins_with_position(g.heads());
    unless(holds, Kind::NoPosition, 0)
}

/// The first fault of those that come before out of memory.
#[tactic(auto, unfolding(crate::specs::choice::Refused::early_fault))]
pub fn test_early(g: &GeometryView<'_>, choice: &Choice) -> Result<(), Fault>
    ensures { Tests (early_fault g.now choice.now) result }
{
    test_choice(g, choice)?;
    test_empty(g, choice)?;
    test_position(g, choice)
}

/// Whether corrections can wrap between these: the greatest is less than 2^31 - 1 above the least.
fn can_wrap_between(low: i32, high: i32) -> bool
    ensures { result ≡ can_wrap (record { low = low; high = high }) }
{
    low <= high && (high as i64 - low as i64) < 0x7fff_ffff
}

/// Whether corrections of these values can wrap.
fn can_wrap(values: &[i32]) -> bool
    ensures { result ≡ can_wrap (range_of values.now) }
{
    if values.is_empty() {
        return true;
    }
    let (low, high) = range_of(values);
    can_wrap_between(low, high)
}

/// Whether corrections of values of this prediction wrap in their range: those in a square don't.
fn wraps(head: &Head, values: &Values) -> bool
    ensures { result ≡ wraps head.now values.now }
{
    head.octa.is_none() && values.predict != Prediction::Off.code()
}

/// Whether values are to be corrected by wrap, and lie too far apart for it.
fn is_wide(head: &Head, values: &Values) -> bool
    ensures { result ≡ (wraps head.now values.now && not (can_wrap (range_of values.now.values))) }
{
    wraps(head, values) && !can_wrap(values.values.as_slice())
}

/// The first attribute whose values lie too far apart to be corrected by wrap.
fn first_wide(heads: &[Head], values: &[Values]) -> Option<usize>
    ensures { result ≡ position (λ (h, v). wraps h v && not (can_wrap (range_of v.values))) (zip heads.now values.now) }
{
    heads
        .iter()
        .zip(values.iter())
        .position(|(h, v)| is_wide(h, v))
}

/// The fault of the first attribute whose values lie too far apart to be corrected by wrap; each attribute has its head.
pub fn test_ranges(heads: &[Head], values: &[Values]) -> Result<(), Fault>
    ensures { Tests (range_fault heads.now values.now) result }
{
    match first_wide(heads, values) {
        None => Ok(()),
        Some(at) => Err(Fault::new(Kind::Range, at as u64)),
    }
}
