//! Hashes of rows.

ghost use Rattle.std.specs.Prelude.{◌≡◌, ◌*◌, ◌<◌, ◌≤◌, IfOk, length};
ghost use Rattle.mesh_model.specs.Hash.{bucket_of, hash_from, mixed, row_hash, sieve_of};
ghost use Rattle.mesh_model.specs.Parts.{rows_of};
ghost use Rattle.mesh_model.specs.RowIndex.{AreHashes};

use crate::row_rules::stored_row;
use drc_base::Memory;
use std::alloc::Global;

/// A hash with one more value. The upper half goes into the lower half first, since a product keeps what its
/// factors have in common at their lower ends.
#[tactic(auto, unfolding(crate::specs::Hash::mixed))]
fn mix(hash: u32, value: i32) -> u32
    ensures { result ≡ mixed hash value }
{
    (hash ^ (hash >> 16) ^ value.cast_unsigned()).wrapping_mul(0x9e37_79b1)
}

/// The values of a row, mixed one by one.
fn hash_by_values(row: &[i32]) -> u32
    ensures { result ≡ hash_from 0 row.now }
{
    let mut hash: u32 = 0;
    for value in row {
        hash = mix(hash, *value);
    }
    hash
}

/// The values of a row, mixed. Rows of three and of four are those of most meshes.
fn hash_of(row: &[i32]) -> u32
    ensures { result ≡ hash_from 0 row.now }
{
    match row {
        [a, b, d] => mix(mix(mix(0, *a), *b), *d),
        [a, b, d, e] => mix(mix(mix(mix(0, *a), *b), *d), *e),
        _ => hash_by_values(row),
    }
}

/// The hash of a row.
#[tactic(auto, unfolding(crate::specs::Hash::row_hash))]
fn row_hash(row: &[i32]) -> u32
    ensures { result ≡ row_hash row.now }
{
    let hash = hash_of(row);
    hash ^ (hash >> 15)
}

/// The hash of each row.
#[inline(never)]
pub(crate) fn row_hashes(
    alloc: Global,
    width: u32,
    count: u32,
    cells: &[i32],
) -> Result<Vec<u32>, Memory>
    requires whole { length cells.now ≡ count * width }
    requires wide { 0 < width }
    ensures { IfOk result (λ hashes. AreHashes (rows_of width cells.now) count hashes.items) }
{
    let mut hashes = Vec::with_capacity(alloc, count as usize)?;
    for i in 0..count {
        hashes.push_reserved(row_hash(stored_row(cells, width, count, i)));
    }
    Ok(hashes)
}

/// The bucket of a hash among `mask` + 1.
#[tactic(auto, unfolding(crate::specs::Hash::bucket_of))]
pub(crate) fn bucket_of(mask: u32, hash: u32) -> u32
    ensures bucket { result ≡ bucket_of mask hash }
    ensures bound { result ≤ mask }
{
    hash & mask
}

/// Another bucket of a hash among `mask` + 1: two hashes of one bucket seldom share this one too.
#[tactic(auto, unfolding(crate::specs::Hash::sieve_of))]
pub(crate) fn sieve_of(mask: u32, hash: u32) -> u32
    ensures bucket { result ≡ sieve_of mask hash }
    ensures bound { result ≤ mask }
{
    hash.rotate_left(16) & mask
}
