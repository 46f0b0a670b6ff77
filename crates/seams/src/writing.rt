//! The seam bits of flags.

ghost use Rattle.std.specs.Prelude.{◌≡◌, ℕ, ◌*◌, ◌<◌, ◌≤◌, length, take, if◌then◌else◌, IfOk};
ghost use Rattle.drc_base.specs.declared.limits.TheConstants.{MAX_FACES as most_faces};
ghost use Rattle.corner_table.specs.Sides.{side_at, IsGluing};
ghost use Rattle.corner_table.specs.Table.{gluing_of, glued_in};
ghost use Rattle.rans_binary.specs.Blocks.{Block, first_bits};
ghost use Rattle.seams.specs.Seams.{AreFlags, flag_at};
ghost use Rattle.corner_table.specs.Pairs.{has_bit, bit_sides};
ghost use Rattle.seams.specs.SeamBits.{seam_bits as bits_for, flags_of_bits};

use crate::sides::{flag_of, later_side, sides_across};
use corner_table::SideTable;
use drc_base::Memory;
use std::alloc::Global;

/// How many bits a side has: 1 where it is glued and lies in the lesser face, else 0.
fn bits_at(across: &[u32], faces: u32, side: u32) -> usize
    requires few { faces ≤ most_faces }
    requires gluing { IsGluing faces (glued_in across.now) }
    requires room { 3 * faces ≤ length across.now }
    requires side { side < 3 * faces }
    ensures { result ≡ (if has_bit (glued_in across.now) (side_at side) then 1 else 0) }
{
    match later_side(across, faces, side) {
        None => 0,
        Some(_) => 1,
    }
}

/// Writes the bits of the sides in their order, and gives how many there are. Each side writes its flag
/// where the next bit belongs, and the flag of a side without a bit is written over there, so that the
/// loop takes no branch on which sides have one.
fn put_bits(across: &[u32], faces: u32, seam: &[bool], bits: &mut [bool]) -> usize
    requires few { faces ≤ most_faces }
    requires gluing { IsGluing faces (glued_in across.now) }
    requires entries { 3 * faces ≤ length across.now }
    requires flags { 3 * faces ≤ length seam.now }
    requires room { length (bit_sides faces (glued_in across.now)) < length bits.old }
    ensures { take result bits.new ≡ bits_for faces (glued_in across.now) (flag_at seam.now) }
{
    let mut count: usize = 0;
    for side in 0..3 * faces {
        bits[count] = flag_of(seam, side);
        count += bits_at(across, faces, side);
    }
    count
}

/// The seam bits of flags: for each pair of sides, in the order of the sides 3f + k of the lesser faces,
/// whether it is a seam. A block that has these bits first, whatever follows them, gives the flags again.
/// Fails only when out of memory (Draco Bitstream Specification 2.2, section Edgebreaker Connectivity,
/// attribute seams).
pub fn seam_bits(alloc: Global, t: &SideTable, seam: &[bool]) -> Result<Vec<bool>, Memory>
    requires { AreFlags t.now.faces (gluing_of t.now) seam.now }
    ensures bits { IfOk result (λ v. v.items ≡ bits_for t.now.faces (gluing_of t.now) (flag_at seam.now)) }
    ensures count { IfOk result (λ v. length v.items ≡ length (bit_sides t.now.faces (gluing_of t.now))) }
    ensures again { IfOk result (λ v. (b : Block) → first_bits (length v.items) b ≡ v.items → flags_of_bits t.now.faces (gluing_of t.now) b ≡ seam.now) }
{
    let faces = t.face_count();
    // One bit for each two sides, and room for one flag more, which is no bit.
    let mut bits = vec![in alloc; false; 3 * faces as usize / 2 + 1]?;
    let count = put_bits(sides_across(t), faces, seam, bits.as_mut_slice());
    bits.truncate(count);
    Ok(bits)
}
