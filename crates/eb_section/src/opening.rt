//! The numbers that open the section.

ghost use Rattle.std.specs.Prelude.{◌≡◌, ◌≤◌, IfOk, nat_le};
ghost use Rattle.drc_base.specs.Profile.{profile};
ghost use Rattle.drc_bits.specs.Reading.{Reads, must};
ghost use Rattle.drc_bits.specs.Numbers.{number_at};
ghost use Rattle.drc_bits.specs.Varint.{var32_at};
ghost use Rattle.eb_section.specs.Opening.{traversal_at, opening_at};

use drc_base::{Fault, Kind, MAX_ATTRIBUTES, MAX_FACES, MAX_POINTS};
use drc_bits::Cursor;

/// The traversal whose symbols are coded by themselves.
pub(crate) const STANDARD: u8 = 0;

/// The traversal whose symbols are coded by the degrees of vertices.
pub(crate) const VALENCE: u8 = 2;

/// What the opening of the section declares.
#[derive(Clone, Copy, Debug)]
pub(crate) struct Opening {
    /// Whether symbols are coded by the degrees of vertices, and not by themselves.
    pub(crate) valence: bool,
    /// Vertices, at most `MAX_POINTS`.
    pub(crate) vertices: u32,
    /// Faces, at most `MAX_FACES`.
    pub(crate) faces: u32,
    /// Attribute data, of which each has seams of its own, at most `MAX_ATTRIBUTES`.
    pub(crate) attr_data: u8,
    /// Symbols, no more than faces.
    pub(crate) symbols: u32,
    /// How many of the symbols are splits.
    pub(crate) splits: u32,
}

/// Reads a number that is at most `most`, else a fault of this kind where it stands.
pub(crate) fn read_count(c: &mut Cursor<'_>, most: u32, kind: Kind) -> Result<u32, Fault>
    ensures count { Reads (λ n. n) (must kind (λ n. nat_le n most) var32_at c.old) c.new result }
    ensures bound { IfOk result (λ n. n ≤ most) }
{
    let fault = c.fault(kind);
    let count = c.var32()?;
    if count > most {
        return Err(fault);
    }
    Ok(count)
}

/// Reads the number of attribute data, else `AttrLimit`.
fn read_attr_data(c: &mut Cursor<'_>) -> Result<u8, Fault>
    ensures count { Reads (λ n. n) (must Kind.AttrLimit (λ n. nat_le n MAX_ATTRIBUTES) (number_at 1) c.old) c.new result }
    ensures bound { IfOk result (λ n. n ≤ MAX_ATTRIBUTES) }
{
    let fault = c.fault(Kind::AttrLimit);
    let count = c.get_u8()?;
    if u32::from(count) > MAX_ATTRIBUTES {
        return Err(fault);
    }
    Ok(count)
}

/// Reads the traversal: 0 standard, 2 valence, else `Traversal`.
fn read_traversal(c: &mut Cursor<'_>) -> Result<u8, Fault>
    ensures { Reads (λ n. n) (traversal_at c.old) c.new result }
{
    let unknown = c.fault(Kind::Traversal);
    let traversal = c.get_u8()?;
    if traversal == STANDARD || traversal == VALENCE {
        return Ok(traversal);
    }
    Err(unknown)
}

/// Reads the opening of the section, or its first fault: `Traversal`, `PointLimit`, `FaceLimit`,
/// `AttrLimit`, and `Count` where there are more symbols than faces or more splits than symbols. It takes
/// no memory.
#[tactic(auto, unfolding(crate::specs::Opening::opening_at))]
pub(crate) fn read_opening(c: &mut Cursor<'_>) -> Result<Opening, Fault>
    ensures opening { Reads (λ o. o) (opening_at profile c.old) c.new result }
    ensures vertices { IfOk result (λ o. o.vertices ≤ MAX_POINTS) }
    ensures faces { IfOk result (λ o. o.faces ≤ MAX_FACES) }
    ensures attr_data { IfOk result (λ o. o.attr_data ≤ MAX_ATTRIBUTES) }
    ensures symbols { IfOk result (λ o. o.symbols ≤ o.faces) }
    ensures splits { IfOk result (λ o. o.splits ≤ o.symbols) }
{
    let traversal = read_traversal(c)?;
    let vertices = read_count(c, MAX_POINTS, Kind::PointLimit)?;
    let faces = read_count(c, MAX_FACES, Kind::FaceLimit)?;
    let attr_data = read_attr_data(c)?;
    let symbols = read_count(c, faces, Kind::Count)?;
    let splits = read_count(c, symbols, Kind::Count)?;
    Ok(Opening {
        valence: traversal == VALENCE,
        vertices,
        faces,
        attr_data,
        symbols,
        splits,
    })
}
