//! Reading a whole input.

ghost use Rattle.std.specs.Prelude.{◌≡◌, ◌<◌, ◌≤◌, ◌⊎◌, List, ℕ, true, false, length, vec_len, IfOk, OnOk, MatchResult, IsErrOf};
ghost use Rattle.std.specs.Io.KnownBytes.{IsAtEnd};
ghost use Rattle.drc_base.specs.Counters.{Rose};
ghost use Rattle.drc_base.specs.Sources.{Gave, EndsAt};

use crate::ends::ReadEnd;
use crate::faults::Memory;
use crate::sources::Source;
use std::alloc::Global;

/// How many bytes one call of `take` is asked for at most.
const CHUNK_BYTES: usize = 65536;

/// Reads `input` to its end, where it has at most `most` bytes. The bytes that were taken are given
/// up after a refusal: `Failed` comes only where the source's count of failures rose, `TooLong`
/// exactly where a byte past `most` came, and reading stops there; out of memory is answered before anything
/// was taken, or where the last bytes that came aren't the end.
pub fn read_all<I: Source>(alloc: Global, input: &mut I, most: u64) -> Result<Vec<u8>, ReadEnd>
    ensures gave { (bytes : List ℕ)
        × Gave (I.left input.old) (I.left input.new) (I.given input.old) (I.given input.new) bytes
        × MatchResult result (λ v. (v.items ≡ bytes) × (length bytes ≤ most)) (EndsAt most bytes) }
    ensures none_left { OnOk result (IsAtEnd (I.left input.new)) }
    ensures ended { OnOk result (I.ended input.new ≡ true) }
    ensures kept { I.faults input.old ≤ I.faults input.new }
    ensures cause { IsErrOf result ReadEnd.Failed → Rose (I.faults input.old) (I.faults input.new) }
    ensures memory { IsErrOf result ReadEnd.Memory → (input.new ≡ input.old) ⊎ (I.ended input.new ≡ false) }
{
    let Ok(mut chunk) = zeros(alloc, CHUNK_BYTES) else {
        return Err(ReadEnd::Memory);
    };
    read_by(alloc, input, most as usize, &mut chunk)
}

/// So many bytes of value 0.
fn zeros(alloc: Global, n: usize) -> Result<Vec<u8>, Memory>
    ensures { IfOk result (λ v. vec_len v ≡ n) }
{
    let zeros = vec![in alloc; 0u8; n]?;
    Ok(zeros)
}

/// `read_all` by pieces of at most the length of `chunk`.
fn read_by<I: Source>(
    alloc: Global,
    input: &mut I,
    most: usize,
    chunk: &mut [u8],
) -> Result<Vec<u8>, ReadEnd>
    requires { 0 < length chunk.old }
    ensures gave { (bytes : List ℕ)
        × Gave (I.left input.old) (I.left input.new) (I.given input.old) (I.given input.new) bytes
        × MatchResult result (λ v. (v.items ≡ bytes) × (length bytes ≤ most)) (EndsAt most bytes) }
    ensures none_left { OnOk result (IsAtEnd (I.left input.new)) }
    ensures ended { OnOk result (I.ended input.new ≡ true) }
    ensures kept { I.faults input.old ≤ I.faults input.new }
    ensures cause { IsErrOf result ReadEnd.Failed → Rose (I.faults input.old) (I.faults input.new) }
    ensures memory { IsErrOf result ReadEnd.Memory → I.ended input.new ≡ false }
{
    let mut bytes = Vec::new(alloc);
    loop {
        let room = (most - bytes.len()).saturating_add(1).min(chunk.len());
        let piece = &mut chunk[..room];
        let n = match input.take(piece) {
            Ok(n) => n,
            Err(_) => return Err(ReadEnd::Failed),
        };
        if n == 0 {
            return Ok(bytes);
        }
        if n > most - bytes.len() {
            return Err(ReadEnd::TooLong);
        }
        let Ok(()) = bytes.extend_from_slice(&piece[..n]) else {
            return Err(ReadEnd::Memory);
        };
    }
}
