//! Writing what every stream says of an attribute.

ghost use Rattle.std.specs.Prelude.{◌≡◌, ◌<◌, ◌^◌, ◌++◌, OnOk};
ghost use Rattle.drc_bits.specs.Spells.{Spells};
ghost use Rattle.attr_heads.specs.HeadItems.{head_at, head_bytes, stream_head, HeadPasses};

use crate::codings::coded_comps;
use crate::heads::Head;
use drc_base::Memory;
use drc_bits::put_var32;

/// Appends the bytes of a head, without what its integers stand for.
pub fn put_bare_head(out: &mut Vec<u8>, head: &Head) -> Result<(), Memory>
    ensures bytes { OnOk result (out.new.items ≡ out.old.items ++ head_bytes head.now) }
    ensures again { HeadPasses head.now → OnOk result (Spells head_at (head_bytes head.now) (stream_head head.now)) }
    ensures id { OnOk result (head.now.id < 2 ^ 32) }
{
    out.extend_from_slice(&[head.usage, head.dtype, coded_comps(head), head.normalized])?;
    out.extend_from_slice(&put_var32(head.id))?;
    Ok(())
}
