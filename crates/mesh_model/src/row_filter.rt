//! The hashes that are equal to others, and few more, found in two passes.
//!
//! The first pass sets a bit for the bucket of each hash. A hash whose bit is set already is kept: of equal hashes
//! each but the first one is. Where none is kept, all are distinct. The second pass has a bit for another bucket of
//! each kept hash. The hashes whose bit is set there are chosen: the kept ones, and with them each hash that equals
//! one of these, since equal hashes share all buckets.

ghost use Rattle.std.specs.Prelude.{◌≡◌, ◌+◌, ◌*◌, ◌<◌, ◌≤◌, ◌^◌, ℕ, All, IfOk, length, slice_index};
ghost use Rattle.mesh_model.specs.BitSet.{HasBit};
ghost use Rattle.mesh_model.specs.Hash.{sieve_of};
ghost use Rattle.mesh_model.specs.RowIndex.{AreChosenHashes, AreKept, ArePassing};

use crate::bit_sets::{has_bit, put_bit};
use crate::row_hash::{bucket_of, sieve_of};
use drc_base::{MAX_FACES, Memory};
use std::alloc::Global;

/// The hashes whose bucket, of `mask` + 1, has an earlier one. The set of buckets is `words`.
fn kept_hashes(
    alloc: Global,
    hashes: &[u32],
    mask: u32,
    words: &mut [u64],
) -> Result<Vec<u32>, Memory>
    requires few { length hashes.now ≤ 3 * MAX_FACES }
    requires room { mask < 64 * length words.old }
    ensures kept { IfOk result (λ kept. AreKept hashes.now (length hashes.now) kept.items) }
    ensures few { IfOk result (λ kept. length kept.items ≤ length hashes.now) }
{
    let mut kept = Vec::new(alloc);
    for i in 0..hashes.len() as u32 {
        let was = put_bit(words, bucket_of(mask, hashes[i as usize]));
        if !was {
            continue;
        }
        kept.push(i)?;
    }
    Ok(kept)
}

/// Puts the other bucket, of `mask` + 1, of each kept hash into the set `words`.
fn put_kept(hashes: &[u32], kept: &[u32], mask: u32, words: &mut [u64])
    requires within { All (λ p. p < length hashes.now) kept.now }
    requires room { mask < 64 * length words.old }
    ensures { All (λ p. HasBit words.new (sieve_of mask (slice_index hashes.now p))) kept.now }
{
    for i in kept {
        let _was = put_bit(words, sieve_of(mask, hashes[*i as usize]));
    }
}

/// The hashes whose other bucket, of `mask` + 1, is in the set `words`.
fn passing_hashes(
    alloc: Global,
    hashes: &[u32],
    mask: u32,
    words: &[u64],
) -> Result<Vec<u32>, Memory>
    requires few { length hashes.now ≤ 3 * MAX_FACES }
    requires room { mask < 64 * length words.now }
    ensures { IfOk result (λ chosen. ArePassing (λ p. HasBit words.now (sieve_of mask (slice_index hashes.now p))) (length hashes.now) chosen.items) }
{
    let mut chosen = Vec::new(alloc);
    for i in 0..hashes.len() as u32 {
        let passes = has_bit(words, sieve_of(mask, hashes[i as usize]));
        if !passes {
            continue;
        }
        chosen.push(i)?;
    }
    Ok(chosen)
}

/// The hashes that share their other bucket with a kept one. `words` is written over: 64 bits for each kept hash, as
/// far as there are so many.
fn hashes_like(
    alloc: Global,
    hashes: &[u32],
    kept: &[u32],
    words: &mut [u64],
) -> Result<Vec<u32>, Memory>
    requires few { length hashes.now ≤ 3 * MAX_FACES }
    requires words { (0 < length words.old) × (64 * length words.old < 2 ^ 32) }
    requires kept { AreKept hashes.now (length hashes.now) kept.now }
    requires many { (0 < length kept.now) × (length kept.now ≤ length hashes.now) }
    ensures { IfOk result (λ chosen. AreChosenHashes hashes.now (length hashes.now) chosen.items) }
{
    let size = kept.len().next_power_of_two().min(words.len());
    let words = &mut words[..size];
    words.fill(0);
    let mask = (64 * size - 1) as u32;
    put_kept(hashes, kept, mask, words);
    passing_hashes(alloc, hashes, mask, words)
}

/// Hashes among which are all that equal others. Takes 8 to 16 bits a hash beside what is answered.
pub(crate) fn chosen_hashes(alloc: Global, hashes: &[u32]) -> Result<Vec<u32>, Memory>
    requires few { length hashes.now ≤ 3 * MAX_FACES }
    ensures { IfOk result (λ chosen. AreChosenHashes hashes.now (length hashes.now) chosen.items) }
{
    let size = (hashes.len() as u32 / 8 + 1).next_power_of_two();
    let mut words = vec![in alloc; 0u64; size as usize]?;
    let words = words.as_mut_slice();
    let kept = kept_hashes(alloc, hashes, 64 * size - 1, words)?;
    if kept.is_empty() {
        return Ok(kept);
    }
    hashes_like(alloc, hashes, kept.as_slice(), words)
}
