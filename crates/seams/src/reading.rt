//! Flags from seam bits.

ghost use Rattle.std.specs.Prelude.{◌≡◌, ℕ, ◌*◌, ◌<◌, ◌≤◌, length, map, replicate, true, IfOk, All, OnErr};
ghost use Rattle.drc_base.specs.declared.limits.TheConstants.{MAX_FACES as most_faces};
ghost use Rattle.corner_table.specs.Sides.{IsGluing};
ghost use Rattle.corner_table.specs.Table.{gluing_of, glued_in};
ghost use Rattle.rans_binary.specs.Blocks.{behind};
ghost use Rattle.seams.specs.Seams.{AreFlags};
ghost use Rattle.corner_table.specs.Pairs.{bit_sides};
ghost use Rattle.seams.specs.SeamBits.{flags_of_bits};

use crate::sides::{all_set, later_side, sides_across};
use corner_table::SideTable;
use drc_base::Memory;
use rans_binary::BitBlock;
use std::alloc::Global;

/// Takes the flags of all sides from a block, where each is set before. Gives the block behind its bits.
/// It is never inlined, so that all numbers of its loop have registers, whoever calls it.
#[inline(never)]
fn read_block<'a>(
    across: &[u32],
    faces: u32,
    block: BitBlock<'a>,
    flags: &mut [bool],
) -> BitBlock<'a>
    requires few { faces ≤ most_faces }
    requires gluing { IsGluing faces (glued_in across.now) }
    requires room { 3 * faces ≤ length across.now }
    requires set { flags.old ≡ replicate (3 * faces) true }
    ensures flags { flags.new ≡ flags_of_bits faces (glued_in across.now) block.entry }
    ensures after { result ≡ behind (length (bit_sides faces (glued_in across.now))) block.entry }
{
    let mut ahead = block;
    for side in 0..3 * faces {
        match later_side(across, faces, side) {
            None => {}
            Some(other) => {
                let flag = ahead.next();
                flags[side as usize] = flag;
                flags[other as usize] = flag;
            }
        }
    }
    ahead
}

/// As many lists of flags for each side, all of them set.
fn lists_set(alloc: Global, lists: usize, sides: usize) -> Result<Vec<Vec<bool>>, Memory>
    ensures { IfOk result (λ v. map (λ s. s.items) v.items ≡ replicate lists (replicate sides true)) }
{
    let mut all = Vec::new(alloc);
    for _ in 0..lists {
        all.push(all_set(alloc, sides)?)?;
    }
    Ok(all)
}

/// The flags of all blocks in turn.
fn read_each(
    alloc: Global,
    t: &SideTable,
    blocks: &mut [BitBlock<'_>],
) -> Result<Vec<Vec<bool>>, Memory>
    ensures flags { IfOk result (λ v. map (λ s. s.items) v.items ≡ map (flags_of_bits t.now.faces (gluing_of t.now)) blocks.old) }
    ensures after { IfOk result (λ v. blocks.new ≡ map (behind (length (bit_sides t.now.faces (gluing_of t.now)))) blocks.old) }
    ensures refused { OnErr result (blocks.new ≡ blocks.old) }
{
    let faces = t.face_count();
    let across = sides_across(t);
    let mut lists = lists_set(alloc, blocks.len(), 3 * faces as usize)?;
    for k in 0..blocks.len() {
        blocks[k] = read_block(across, faces, blocks[k].copy(), lists[k].as_mut_slice());
    }
    Ok(lists)
}

/// For each block a list of one flag for each side 3f + k, whether it is a seam: boundaries are, and of a
/// pair the side of the lesser face takes the block's next bit, for both sides. A block can't end: after
/// its own bits it gives others. Each block stands behind the bits that were taken. Fails only when out of
/// memory, and then the blocks are as before (Draco Bitstream Specification 2.2, section Edgebreaker
/// Connectivity, attribute seams).
pub fn read_seams(
    alloc: Global,
    t: &SideTable,
    blocks: &mut [BitBlock<'_>],
) -> Result<Vec<Vec<bool>>, Memory>
    ensures flags { IfOk result (λ v. map (λ s. s.items) v.items ≡ map (flags_of_bits t.now.faces (gluing_of t.now)) blocks.old) }
    ensures sound { IfOk result (λ v. All (AreFlags t.now.faces (gluing_of t.now)) (map (λ s. s.items) v.items)) }
    ensures after { IfOk result (λ v. blocks.new ≡ map (behind (length (bit_sides t.now.faces (gluing_of t.now)))) blocks.old) }
    ensures refused { OnErr result (blocks.new ≡ blocks.old) }
{
    // For the prover alone: the entries of a table are a gluing.
    let _faces = t.face_count();
    let lists = read_each(alloc, t, blocks)?;
    Ok(lists)
}
