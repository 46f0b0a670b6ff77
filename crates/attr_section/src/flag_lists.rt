//! Reading the flags of predictions.

ghost use Rattle.std.specs.Prelude.{◌≡◌, ◌≤◌, IfOk, length};
ghost use Rattle.drc_bits.specs.Reading.{Reads, Gives, many_at};
ghost use Rattle.rans_binary.specs.Blocks.{Block, first_bits};
ghost use Rattle.attr_section.specs.Values.{flag_count_at, flag_bits_at, flags_at};

use drc_base::{Fault, Kind, Memory, Refusal, Sequence};
use drc_bits::Cursor;
use predict::Flags;
use rans_binary::BitBlock;
use std::alloc::Global;

/// The number of flags in a list over so many corners.
fn read_flag_count(c: &mut Cursor<'_>, corners: usize) -> Result<u32, Fault>
    ensures item { Reads (λ n. n) (flag_count_at corners c.old) c.new result }
    ensures few { IfOk result (λ n. n ≤ corners) }
{
    let at = c.place();
    let count = c.var32()?;
    if count as usize > corners {
        return Err(Fault::new(Kind::FlagCount, at));
    }
    Ok(count)
}

/// The first `count` bits of a block.
pub(crate) fn bits_of(alloc: Global, block: BitBlock<'_>, count: u32) -> Result<Vec<bool>, Memory>
    ensures bits { IfOk result (λ v. v.items ≡ first_bits count block.entry) }
    ensures len { IfOk result (λ v. length v.items ≡ count) }
{
    let mut block = block;
    let mut bits = Vec::with_capacity(alloc, count as usize)?;
    for _number in 0..count {
        bits.push_reserved(block.next());
    }
    Ok(bits)
}

/// So many flags: the first bits of a block, and no block where there are none.
#[tactic(auto, unfolding(crate::specs::Values::flag_bits_at))]
fn read_flag_bits(alloc: Global, c: &mut Cursor<'_>, count: u32) -> Result<Vec<bool>, Refusal>
    ensures { Gives (λ v. v.items) (flag_bits_at count c.old) c.new result }
{
    if count == 0 {
        return Ok(Vec::new(alloc));
    }
    let block = BitBlock::read(c)?;
    let bits = bits_of(alloc, block, count)?;
    Ok(bits)
}

/// A list of flags over so many corners.
#[tactic(auto, unfolding(crate::specs::Values::flags_at))]
fn read_flags(alloc: Global, c: &mut Cursor<'_>, corners: usize) -> Result<Sequence<bool>, Refusal>
    ensures { Gives (λ s. s) (flags_at corners c.old) c.new result }
{
    let count = read_flag_count(c, corners)?;
    let bits = read_flag_bits(alloc, c, count)?;
    Ok(Sequence::from_vec(bits))
}

/// So many lists of flags over so many corners. `FlagCount` at the number of a list that has more flags than
/// there are corners, so three for each face, and the faults of their blocks.
pub fn read_flag_lists(
    alloc: Global,
    c: &mut Cursor<'_>,
    corners: usize,
    count: u32,
) -> Result<Flags, Refusal>
    ensures { Gives (λ f. f.lists) (many_at (flags_at corners) count c.old) c.new result }
{
    let mut lists = Vec::new(alloc);
    for _number in 0..count {
        let flags = read_flags(alloc, c, corners)?;
        lists.push(flags)?;
    }
    Ok(Flags {
        lists: Sequence::from_vec(lists),
    })
}
