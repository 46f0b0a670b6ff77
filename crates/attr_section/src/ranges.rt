//! The range of values: found, as a wrap, read and written.

ghost use Rattle.std.specs.Prelude.{◌≡◌, ◌<◌, ◌++◌, OnOk, length};
ghost use Rattle.std.specs.Int.{int_min, int_max};
ghost use Rattle.std.specs.List.{fold};
ghost use Rattle.drc_bits.specs.Reading.{Reads};
ghost use Rattle.drc_bits.specs.Spells.{Spells};
ghost use Rattle.predict.specs.Wrap.{CanWrap};
ghost use Rattle.attr_section.specs.Values.{range_at};
ghost use Rattle.attr_section.specs.WrittenParts.{range_of, signed_bytes, range_bytes};

use drc_base::{Fault, Kind, Memory};
use drc_bits::Cursor;
use predict::Wrap;

/// The least and the greatest of a value and others.
fn range_from(first: i32, rest: &[i32]) -> (i32, i32)
    ensures low { result.0 ≡ fold int_min first rest.now }
    ensures high { result.1 ≡ fold int_max first rest.now }
{
    let mut low = first;
    let mut high = first;
    for value in rest {
        low = low.min(*value);
        high = high.max(*value);
    }
    (low, high)
}

/// The least and the greatest of values.
pub fn range_of(values: &[i32]) -> (i32, i32)
    requires { 0 < length values.now }
    ensures { range_of values.now ≡ record { low = result.0; high = result.1 } }
{
    range_from(values[0], &values[1..])
}

/// The wrap of this range.
pub(crate) fn wrap_of(low: i32, high: i32) -> Wrap
    requires { CanWrap (record { low = low; high = high }) }
    ensures { result ≡ record { low = low; high = high } }
{
    Wrap::new(low, high).unwrap()
}

/// The range of an attribute's values.
#[tactic(auto, unfolding(crate::specs::Values::range_at))]
pub(crate) fn read_range(c: &mut Cursor<'_>) -> Result<Wrap, Fault>
    ensures { Reads (λ r. r) (range_at c.old) c.new result }
{
    let fault = c.fault(Kind::WrapRange);
    let low = c.get_i32()?;
    let high = c.get_i32()?;
    Wrap::new(low, high).ok_or(fault)
}

/// Appends a signed number of four bytes.
fn put_i32(out: &mut Vec<u8>, x: i32) -> Result<(), Memory>
    ensures bytes { OnOk result (out.new.items ≡ out.old.items ++ signed_bytes x) }
{
    out.extend_from_slice(&x.to_le_bytes())?;
    Ok(())
}

/// Appends a range.
pub(crate) fn put_range(out: &mut Vec<u8>, low: i32, high: i32) -> Result<(), Memory>
    requires { CanWrap (record { low = low; high = high }) }
    ensures bytes { OnOk result (out.new.items ≡ out.old.items ++ range_bytes (record { low = low; high = high })) }
    ensures again { OnOk result (Spells range_at (range_bytes (record { low = low; high = high })) (record { low = low; high = high })) }
{
    put_i32(out, low)?;
    put_i32(out, high)?;
    Ok(())
}
