//! The tree of a cloud, to be written.

ghost use Rattle.std.specs.Prelude.{◌≡◌, ◌<◌, ◌≤◌, ◌*◌, ◌^◌, IfOk, length};
ghost use Rattle.attr_heads.specs.Head.{width_of};
ghost use Rattle.kd_points.specs.Extents.{extents_of, keys_of};
ghost use Rattle.kd_points.specs.Written.{kd_split_of, rest_of};
ghost use Rattle.kd_tree.specs.Order.{IsKdOrder};

use crate::axes::{axes_over, depth_of};
use crate::extents::{Extent, extents_of};
use crate::keys::keys_of;
use drc_base::{MAX_KD_POINTS, MAX_KD_VALUES, Memory, Sequence};
use kd_tree::{sort_keys, write_tree};
use mesh_model::Cloud;
use std::alloc::Global;

/// What is written of a cloud behind its heads.
#[derive(Drop)]
pub struct Tree {
    /// The extents of its components.
    pub extents: Sequence<Extent>,
    /// The numbers of its points by key, then by number.
    pub order: Sequence<u32>,
    /// The split bits of the tree.
    pub split: Sequence<bool>,
    /// The rest bits of the tree.
    pub rest: Sequence<bool>,
}

/// The tree of a cloud.
pub fn tree_of(alloc: Global, cloud: &Cloud) -> Result<Tree, Memory>
    requires some { 0 < length cloud.now.points }
    requires few { length cloud.now.points ≤ MAX_KD_POINTS }
    requires values { length cloud.now.points * width_of cloud.now.heads ≤ MAX_KD_VALUES }
    ensures extents { IfOk result (λ t. t.extents ≡ extents_of cloud.now) }
    ensures order { IfOk result (λ t. IsKdOrder (keys_of cloud.now) t.order) }
    ensures split { IfOk result (λ t. t.split ≡ kd_split_of cloud.now) }
    ensures rest { IfOk result (λ t. t.rest ≡ rest_of cloud.now) }
    ensures short { IfOk result (λ t. (length t.split < 2 ^ 31) × (length t.rest < 2 ^ 31)) }
{
    let extents = extents_of(alloc, cloud)?;
    let depth = depth_of(&extents);
    let axes = axes_over(alloc, &extents)?;
    let keys = keys_of(alloc, cloud, &extents, &axes, depth)?;
    let sorted = sort_keys(alloc, keys)?;
    let bits = write_tree(alloc, &sorted.keys)?;
    Ok(Tree {
        extents: Sequence::from_vec(extents),
        order: sorted.order,
        split: Sequence::from_vec(bits.split),
        rest: Sequence::from_vec(bits.rest),
    })
}
