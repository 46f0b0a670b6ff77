//! Reading the blocks of seam bits.

ghost use Rattle.std.specs.Prelude.{◌≡◌, IfOk, vec_len};
ghost use Rattle.drc_bits.specs.Reading.{Gives, many_at};
ghost use Rattle.rans_binary.specs.Blocks.{bit_block_at};

use drc_base::Refusal;
use drc_bits::Cursor;
use rans_binary::BitBlock;
use std::alloc::Global;

/// Reads so many blocks of bits, one behind another, their bits not yet.
pub(crate) fn read_blocks<'a>(
    alloc: Global,
    c: &mut Cursor<'a>,
    count: u8,
) -> Result<Vec<BitBlock<'a>>, Refusal>
    ensures blocks { Gives (λ v. v.items) (many_at bit_block_at count c.old) c.new result }
    ensures len { IfOk result (λ v. vec_len v ≡ count) }
{
    let mut blocks = Vec::new(alloc);
    for _k in 0..count {
        let block = BitBlock::read(c)?;
        blocks.push(block)?;
    }
    Ok(blocks)
}
