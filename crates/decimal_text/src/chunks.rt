//! A chunk of text that is appended to a text whenever it is nearly full.

ghost use Rattle.std.specs.Prelude.{◌≡◌, ◌+◌, ◌≤◌, ◌++◌, length, take, IfOk, OnOk};

use drc_base::Memory;

/// The bytes of a chunk.
pub const CHUNK_BYTES: usize = 4096;

/// The bytes that are free after `with_room`.
pub const ROOM_BYTES: usize = 2048;

/// Appends the first `held` bytes of a chunk.
pub fn flushed(out: &mut Vec<u8>, chunk: &[u8], held: usize) -> Result<(), Memory>
    requires { held ≤ length chunk.now }
    ensures { OnOk result (out.new.items ≡ out.old.items ++ take held chunk.now) }
{
    out.extend_from_slice(&chunk[..held])?;
    Ok(())
}

/// The fill of a chunk that has room for `ROOM_BYTES` more: as it was, or 0 after what it holds was
/// appended.
#[inline(always)]
pub fn with_room(out: &mut Vec<u8>, chunk: &[u8], held: usize) -> Result<usize, Memory>
    requires long { length chunk.now ≡ CHUNK_BYTES }
    requires held { held ≤ CHUNK_BYTES }
    ensures text { IfOk result (λ now. out.new.items ++ take now chunk.now ≡ out.old.items ++ take held chunk.now) }
    ensures room { IfOk result (λ now. now + ROOM_BYTES ≤ CHUNK_BYTES) }
{
    if held + ROOM_BYTES <= CHUNK_BYTES {
        return Ok(held);
    }
    flushed(out, chunk, held)?;
    Ok(0)
}
