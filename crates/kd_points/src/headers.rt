//! What stands in front of the tree in a file.

ghost use Rattle.std.specs.Prelude.{◌≡◌, ◌≤◌, ◌<◌, ◌+◌, ◌*◌, ◌^◌, Err, IfOk, OnOk, None, length, All};
ghost use Rattle.drc_base.specs.declared.faults.Fault.{Fault as AnyFault};
ghost use Rattle.drc_base.specs.declared.faults.Refusal.TheVariants as refusal;
ghost use Rattle.drc_bits.specs.Reading.{Reads, Gives, many_at};
ghost use Rattle.attr_heads.specs.Head.{heads_fault, width_of};
ghost use Rattle.kd_points.specs.Header.{kd_opening_at, point_count_at, extent_at, kd_header_at, kd_declared_at};

use crate::extents::Extent;
use crate::head_reading::read_heads;
use attr_heads::Head;
use drc_base::{Fault, Kind, MAX_KD_POINTS, MAX_KD_VALUES, Refusal, Sequence};
use drc_bits::Cursor;
use std::alloc::Global;

/// The first bytes of a file.
pub const MAGIC: [u8; 5] = *b"KDPTS";

/// The version that is read and written.
pub const VERSION: u8 = 1;

/// What stands in front of the tree.
#[derive(Drop)]
pub struct Header {
    /// What each attribute is.
    pub heads: Sequence<Head>,
    /// How many points there are.
    pub count: u32,
    /// The extent of each component.
    pub extents: Sequence<Extent>,
    /// Where the extents begin.
    pub at: u64,
}

/// The first bytes and the version.
#[tactic(auto, unfolding(crate::specs::Header::kd_opening_at))]
fn read_opening(c: &mut Cursor<'_>) -> Result<(), Fault>
    ensures { Reads (λ _. 1) (kd_opening_at c.old) c.new result }
{
    let at = c.place();
    let first = c.slice(5)?;
    if first != MAGIC.as_slice() {
        return Err(Fault::new(Kind::KdMagic, at));
    }
    let at = c.place();
    let version = c.get_u8()?;
    if version != VERSION {
        return Err(Fault::new(Kind::KdVersion, at));
    }
    Ok(())
}

/// How many points of so many integers there are.
#[tactic(auto, unfolding(crate::specs::Header::point_count_at))]
fn read_point_count(c: &mut Cursor<'_>, width: u32) -> Result<u32, Fault>
    requires { width ≤ 128 }
    ensures item { Reads (λ n. n) (point_count_at width c.old) c.new result }
    ensures some { IfOk result (λ n. 0 < n) }
    ensures few { IfOk result (λ n. n ≤ MAX_KD_POINTS) }
    ensures values { IfOk result (λ n. n * width ≤ MAX_KD_VALUES) }
{
    let at = c.place();
    let n = c.var32()?;
    if n > MAX_KD_POINTS {
        return Err(Fault::new(Kind::PointLimit, at));
    }
    if n * width > MAX_KD_VALUES {
        return Err(Fault::new(Kind::KdLimit, at));
    }
    if n == 0 {
        return Err(Fault::new(Kind::Empty, at));
    }
    Ok(n)
}

/// The extent of a component.
#[tactic(auto, unfolding(crate::specs::Header::extent_at))]
fn read_extent(c: &mut Cursor<'_>) -> Result<Extent, Fault>
    ensures item { Reads (λ e. e) (extent_at c.old) c.new result }
    ensures bits { IfOk result (λ e. e.bits ≤ 32) }
{
    let least = c.get_i32()?;
    let at = c.place();
    let bits = c.get_u8()?;
    if bits > 32 {
        return Err(Fault::new(Kind::KdBits, at));
    }
    Ok(Extent { least, bits })
}

/// The extents of `width` components.
fn read_extents(alloc: Global, c: &mut Cursor<'_>, width: u32) -> Result<Vec<Extent>, Refusal>
    ensures item { Gives (λ v. v.items) (many_at extent_at width c.old) c.new result }
    ensures len { IfOk result (λ v. length v.items ≡ width) }
    ensures bits { IfOk result (λ v. All (λ e. e.bits ≤ 32) v.items) }
    ensures place { OnOk result (c.new.place ≡ c.old.place + 5 * width) }
{
    let mut extents = Vec::new(alloc);
    for _number in 0..width {
        let extent = read_extent(c)?;
        extents.push(extent)?;
    }
    Ok(extents)
}

/// How many integers a point of these heads has.
fn width_of(heads: &[Head]) -> u32
    requires { heads_fault heads.now ≡ None }
    ensures width { result ≡ width_of heads.now }
    ensures most { result ≤ 128 }
{
    let mut width: u32 = 0;
    for head in heads {
        width += u32::from(head.comps);
    }
    width
}

/// Reads what stands in front of the tree. The first fault, each at its item's place: `KdMagic` and
/// `KdVersion`; those of heads; at the number of points `PointLimit`, then `KdLimit` where points times
/// their integers are above `MAX_KD_VALUES`, then `Empty`; `KdBits` where the integers of a component have
/// more than 32 bits; and `Short` and `Long`. The faults of the first bytes, the version and the number of
/// attributes come before out of memory.
#[tactic(auto, unfolding(crate::specs::Header::kd_header_at, crate::specs::Header::kd_declared_at))]
pub fn read_header(alloc: Global, c: &mut Cursor<'_>) -> Result<Header, Refusal>
    ensures item { Gives (λ h. h) (kd_header_at c.old) c.new result }
    ensures early { (f : AnyFault) → kd_declared_at c.old ≡ Err f → result ≡ Err (refusal.Fault f) }
    ensures pass { IfOk result (λ h. heads_fault h.heads ≡ None) }
    ensures len { IfOk result (λ h. length h.extents ≡ width_of h.heads) }
    ensures most { IfOk result (λ h. width_of h.heads ≤ 128) }
    ensures bits { IfOk result (λ h. All (λ e. e.bits ≤ 32) h.extents) }
    ensures room { IfOk result (λ h. h.at + 5 * width_of h.heads < 2 ^ 64) }
    ensures few { IfOk result (λ h. h.count ≤ MAX_KD_POINTS) }
    ensures values { IfOk result (λ h. h.count * width_of h.heads ≤ MAX_KD_VALUES) }
{
    read_opening(c)?;
    let heads = read_heads(alloc, c)?;
    let width = width_of(&heads);
    let count = read_point_count(c, width)?;
    let at = c.place();
    let extents = read_extents(alloc, c, width)?;
    // For the prover alone: the place behind the extents is a number of 64 bits.
    let _end = c.place();
    Ok(Header {
        heads: Sequence::from_vec(heads),
        count,
        extents: Sequence::from_vec(extents),
        at,
    })
}
