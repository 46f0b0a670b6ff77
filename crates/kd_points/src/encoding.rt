//! Writing a cloud.

ghost use Rattle.std.specs.Prelude.{◌≡◌, ◌<◌, ◌^◌, ◌++◌, ℕ, List, All, map, Err, Some, IfOk, OnOk, length};
ghost use Rattle.drc_base.specs.declared.faults.Fault.{Fault as AnyFault};
ghost use Rattle.drc_base.specs.declared.faults.Refusal.TheVariants as refusal;
ghost use Rattle.drc_base.specs.Refusals.{Answers};
ghost use Rattle.rans_binary.specs.Blocks.{IsBlockOf, block};
ghost use Rattle.mesh_model.specs.Contents.{heads_in};
ghost use Rattle.kd_points.specs.Extents.{extents_of};
ghost use Rattle.kd_points.specs.Laws.{KdHeadFits};
ghost use Rattle.kd_points.specs.Rows.{KdMeans, kd_rows};
ghost use Rattle.kd_points.specs.Written.{KdOrder, cloud_in, kd_due, kd_counts, kd_fault, kd_written, rest_of, kd_split_of};

use crate::head_writing::write_header;
use crate::refusals::cloud_to_write;
use crate::trees::{Tree, tree_of};
use drc_base::{Memory, Refusal, Sequence};
use mesh_model::{Cloud, Geometry, Renumber};
use rans_binary::write_block;
use std::alloc::Global;

/// A row without a turn for each number of a point.
fn rows_of(alloc: Global, order: &[u32]) -> Result<Vec<(u32, u8)>, Memory>
    ensures { IfOk result (λ v. v.items ≡ map (λ p. (p, 0)) order.now) }
{
    let mut rows = Vec::with_capacity(alloc, order.len())?;
    for point in order {
        rows.push((*point, 0))?;
    }
    Ok(rows)
}

/// The file of a cloud whose tree this is, and the order of its points. The bits are freed.
#[tactic(auto, unfolding(crate::specs::Written::kd_written))]
fn write_file(alloc: Global, cloud: &Cloud, tree: Tree) -> Result<(Vec<u8>, Sequence<u32>), Memory>
    requires extents { tree.extents ≡ extents_of cloud.now }
    requires split { tree.split ≡ kd_split_of cloud.now }
    requires rest { tree.rest ≡ rest_of cloud.now }
    requires short { (length tree.split < 2 ^ 31) × (length tree.rest < 2 ^ 31) }
    ensures file { IfOk result (λ v. v.0.items ≡ kd_written cloud.now) }
    ensures order { IfOk result (λ v. v.1 ≡ tree.order) }
    ensures fields { OnOk result (All KdHeadFits cloud.now.heads) }
    ensures again { OnOk result (IsBlockOf (kd_split_of cloud.now) (block (kd_split_of cloud.now)) × IsBlockOf (rest_of cloud.now) (block (rest_of cloud.now))) }
{
    let mut out = write_header(alloc, cloud, tree.extents.as_slice())?;
    let split = write_block(alloc, tree.split.as_slice())?;
    out.extend_from_slice(&split)?;
    let rest = write_block(alloc, tree.rest.as_slice())?;
    out.extend_from_slice(&rest)?;
    Ok((out, tree.order))
}

/// The file of a cloud as a kd-tree, and by which rows the cloud that it means is the one that is written:
/// row i is (p, 0) where p is the number of the file's point i, and the points stand by key, then by number,
/// so that row i names the point before which i points come. The key of a point is the bits of its integers
/// above the least ones, those of the widest components first. The file means the cloud by these rows,
/// whatever bytes follow it.
///
/// Refusals, the first that applies: `KdMesh` at 0 where the geometry is a mesh; `Empty` at 0 where it has
/// no points; `PointLimit` at the number of points where that is above `MAX_KD_POINTS`; `KdLimit` at points
/// times integers of a point where that is above `MAX_KD_VALUES`. They come before out of memory. The ids,
/// ranges and minima of the heads that are written fit their four bytes.
pub fn kd_encode(alloc: Global, g: &Geometry) -> Result<(Vec<u8>, Renumber), Refusal>
    ensures answer { Answers (λ r. r.0.items) (kd_due g.now) result }
    ensures early { (f : AnyFault) → kd_fault g.now ≡ Some f → result ≡ Err (refusal.Fault f) }
    ensures order { IfOk result (λ r. KdOrder (cloud_in g.now) r.1.rows) }
    ensures rows { IfOk result (λ r. r.1.rows ≡ kd_rows (cloud_in g.now)) }
    ensures again { IfOk result (λ r. (more : List ℕ) → KdMeans g.now (r.0.items ++ more) r.1.rows) }
    ensures fields { OnOk result (All KdHeadFits (heads_in g.now)) }
{
    let cloud = cloud_to_write(g)?;
    let tree = tree_of(alloc, cloud)?;
    let file = write_file(alloc, cloud, tree)?;
    let rows = rows_of(alloc, file.1.as_slice())?;
    Ok((
        file.0,
        Renumber {
            rows: Sequence::from_vec(rows),
        },
    ))
}

/// How many split bits and how many rest bits the file of a cloud has: the lengths of the two lists of bits
/// that `kd_encode` writes. Refused as by `kd_encode`.
pub fn kd_bits(alloc: Global, g: &Geometry) -> Result<(u64, u64), Refusal>
    ensures counts { Answers (λ n. n) (kd_counts g.now) result }
    ensures early { (f : AnyFault) → kd_fault g.now ≡ Some f → result ≡ Err (refusal.Fault f) }
{
    let given = cloud_to_write(g)?;
    let bits = tree_of(alloc, given)?;
    Ok((bits.split.len() as u64, bits.rest.len() as u64))
}
