//! Reading a file of points.

ghost use Rattle.std.specs.Prelude.{◌≡◌, Err, IfOk, IsTrue, length};
ghost use Rattle.drc_base.specs.declared.faults.Fault.{Fault as AnyFault};
ghost use Rattle.drc_base.specs.declared.faults.Refusal.TheVariants as refusal;
ghost use Rattle.drc_base.specs.Refusals.{Answers};
ghost use Rattle.drc_bits.specs.Reading.{Gives};
ghost use Rattle.attr_heads.specs.ProfileHeads.{has_heads};
ghost use Rattle.mesh_model.specs.Contents.{heads_in};
ghost use Rattle.kd_points.specs.Header.{kd_declared_at};
ghost use Rattle.kd_points.specs.Meaning.{tree_at, file_at, kd_meaning, kd_declared_of};

use crate::axes::{axes_over, depth_of};
use crate::headers::read_header;
use crate::points::cloud_of_keys;
use drc_base::{Kind, Refusal};
use drc_bits::Cursor;
use kd_tree::{Keys, read_tree};
use mesh_model::{Cloud, Geometry};
use rans_binary::BitBlock;
use std::alloc::Global;

/// The keys of a tree: its two blocks, both of which are read before the tree.
#[tactic(auto, unfolding(crate::specs::Meaning::tree_at))]
fn read_keys(alloc: Global, c: &mut Cursor<'_>, count: u32, depth: u32) -> Result<Keys, Refusal>
    ensures item { Gives (λ k. k.rows) (tree_at depth count c.old) c.new result }
    ensures depth { IfOk result (λ k. k.depth ≡ depth) }
    ensures count { IfOk result (λ k. length k.rows ≡ count) }
{
    let fault = c.fault(Kind::KdSplit);
    let mut split = BitBlock::read(c)?;
    let mut rest = BitBlock::read(c)?;
    let keys = read_tree(alloc, &mut split, &mut rest, count, depth, fault)?;
    Ok(keys)
}

/// The cloud of a file.
#[tactic(auto, unfolding(crate::specs::Meaning::file_at))]
fn read_file(alloc: Global, c: &mut Cursor<'_>) -> Result<Cloud, Refusal>
    ensures file { Gives (λ g. g) (file_at c.old) c.new result }
    ensures early { (f : AnyFault) → kd_declared_at c.old ≡ Err f → result ≡ Err (refusal.Fault f) }
{
    let header = read_header(alloc, c)?;
    let depth = depth_of(header.extents.as_slice());
    let keys = read_keys(alloc, c, header.count, depth)?;
    let axes = axes_over(alloc, header.extents.as_slice())?;
    let cloud = cloud_of_keys(alloc, header, &axes, &keys)?;
    Ok(cloud)
}

/// The cloud that a file of points means, in the order of the file's tree, or its first fault, each at its
/// item's place unless said otherwise: `KdMagic` where the first five bytes aren't `KDPTS`, and `KdVersion`
/// where the next one isn't 1; `NoAttribute` and `AttrLimit` at the number of attributes; in each of them
/// `AttrType`, `DataType`, `Components` and `QuantBits`; at the number of points `PointLimit` above
/// `MAX_KD_POINTS`, `KdLimit` where points times integers of a point are above `MAX_KD_VALUES`, and `Empty`
/// at 0; `KdBits` where the offsets in a component have more than 32 bits; the faults of the block of split
/// bits, then those of the block of rest bits; `KdSplit` where the first of these blocks begins, if more
/// points lie in a part of a box than in the box; `ValueRange` at the extent of the first component with an
/// integer outside its data type; and `Short` and `Long`. Bytes behind the end aren't looked at.
/// The faults of the first bytes, the version and the number of attributes come before out of memory.
/// No attribute has a square, so that each profile has all of them.
pub fn kd_decode(alloc: Global, bytes: &[u8]) -> Result<Geometry, Refusal>
    ensures meaning { Answers (λ g. g) (kd_meaning bytes.now) result }
    ensures early { (f : AnyFault) → kd_declared_of bytes.now ≡ Err f → result ≡ Err (refusal.Fault f) }
    ensures heads { IfOk result (λ g. IsTrue (has_heads 2 (heads_in g))) }
{
    let mut c = Cursor::new(bytes);
    let cloud = read_file(alloc, &mut c)?;
    Ok(Geometry::Cloud(cloud))
}
