//! What stands behind the corrections of values: the flags of their prediction, and the range of the values.

ghost use Rattle.std.specs.Prelude.{◌≡◌, ◌<◌, ◌^◌, ◌++◌, OnOk, All, length};
ghost use Rattle.std.specs.Option.{option_map};
ghost use Rattle.drc_bits.specs.Reading.{Gives};
ghost use Rattle.predict.specs.Wrap.{CanWrap};
ghost use Rattle.predict.specs.Surfaces.{surface_of, surface_or};
ghost use Rattle.attr_section.specs.Values.{behind_at};
ghost use Rattle.attr_section.specs.WrittenParts.{behind_bytes, BehindSpelled};

use crate::flag_lists::read_flag_lists;
use crate::flag_writing::put_flag_lists;
use crate::ranges::{put_range, read_range};
use drc_base::{Memory, Refusal};
use drc_bits::Cursor;
use predict::{Behind, Flags, Ordered, Wrap};
use std::alloc::Global;

/// The number of corners of an ordered surface, none where there is no surface.
fn corners_of(on: Option<&Ordered<'_>>) -> usize
    ensures { result ≡ length (surface_or (surface_of (option_map (λ t. t.now) on.entry))).entries }
{
    match on {
        None => 0,
        Some(on) => on.classes.of_corner.len(),
    }
}

/// The flags and the range behind corrections over an ordered surface. `FlagCount` at the number of a list of
/// flags that has more than three for each face, and the faults of their blocks; `WrapRange` at the range.
#[tactic(auto, unfolding(crate::specs::Values::behind_at, crate::specs::Values::flag_lists_at))]
pub fn read_behind(
    alloc: Global,
    c: &mut Cursor<'_>,
    behind: Behind,
    on: Option<&Ordered<'_>>,
) -> Result<(Flags, Wrap), Refusal>
    ensures { Gives (λ x. (x.0.lists, x.1)) (behind_at behind (surface_or (surface_of (option_map (λ t. t.now) on.entry))) c.old) c.new result }
{
    match behind {
        Behind::Nothing => Ok((Flags::none(alloc), read_range(c)?)),
        Behind::FlagLists(count) => {
            let flags = read_flag_lists(alloc, c, corners_of(on), count)?;
            let wrap = read_range(c)?;
            Ok((flags, wrap))
        }
    }
}

/// Appends the flags and the range behind corrections.
pub fn put_behind(
    alloc: Global,
    out: &mut Vec<u8>,
    behind: Behind,
    flags: &Flags,
    low: i32,
    high: i32,
) -> Result<(), Memory>
    requires short { All (λ flags. length flags < 2 ^ 31) flags.now.lists }
    requires can_wrap { CanWrap (record { low = low; high = high }) }
    ensures bytes { OnOk result (out.new.items ≡ out.old.items ++ behind_bytes behind flags.now.lists (record { low = low; high = high })) }
    ensures again { OnOk result (BehindSpelled behind flags.now.lists (record { low = low; high = high })) }
{
    match behind {
        Behind::Nothing => {
            put_range(out, low, high)?;
            Ok(())
        }
        Behind::FlagLists(_) => {
            put_flag_lists(alloc, out, flags.lists.as_slice())?;
            put_range(out, low, high)?;
            Ok(())
        }
    }
}
