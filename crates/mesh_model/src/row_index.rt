//! An index of rows: finds which rows are equal to earlier ones, in a few steps a row.

ghost use Rattle.std.specs.Prelude.{◌≡◌, ◌+◌, ◌*◌, ◌<◌, ◌≤◌, ◌^◌, ℕ, ℤ, List, [], All, IfOk, MatchOption, false, length, slice_index, slice_index_or};
ghost use Rattle.mesh_model.specs.CountedRows.{pairs_allowed};
ghost use Rattle.mesh_model.specs.RowIndex.{AreChains, AreChosen, AreHashes, AreRising, AreSpread, AreTwins, AreUnlike, IsTwin, rows_at};

use crate::counted_rows::CountedRows;
use crate::row_filter::chosen_hashes;
use crate::row_hash::bucket_of;
use crate::row_numbers::twins_by_columns;
use drc_base::{MAX_FACES, Memory};
use std::alloc::Global;

/// Links each chosen row to the latest one before it in the bucket of its hash. No row is looked at, so that no step
/// waits for the one before. `tops`, which is 0 at first, has a place for each bucket.
fn link_rows(
    alloc: Global,
    hashes: &[u32],
    chosen: &[u32],
    mask: u32,
    tops: &mut [u32],
) -> Result<Vec<u32>, Memory>
    requires chosen { All (λ p. p < length hashes.now) chosen.now }
    requires few { length chosen.now + 1 < 2 ^ 32 }
    requires buckets { length tops.old ≡ mask + 1 }
    requires none { All (λ top. top ≡ 0) tops.old }
    ensures chains { IfOk result (λ links. (rows : List (List ℤ)) → AreHashes rows (length hashes.now) hashes.now →
        AreChains (rows_at rows chosen.now) (length chosen.now) links.items) }
    ensures long { IfOk result (λ links. length links.items ≡ length chosen.now) }
{
    let mut links = Vec::with_capacity(alloc, chosen.len())?;
    for i in 0..chosen.len() as u32 {
        let row = chosen[i as usize];
        let bucket = bucket_of(mask, hashes[row as usize]) as usize;
        links.push_reserved(tops[bucket]);
        tops[bucket] = i + 1;
    }
    Ok(links)
}

/// A link to the latest chosen row before chosen row `i` that equals it, or 0 where there is none; nothing where no more
/// pairs may be compared.
fn twin_of(links: &[u32], chosen: &[u32], i: u32, rows: &mut CountedRows<'_>) -> Option<u32>
    requires chosen { All (λ p. p < rows.old.table.count) chosen.now }
    requires below { i < length chosen.now }
    requires long { length links.now ≡ length chosen.now }
    requires chains { AreChains (rows_at rows.old.table.rows chosen.now) (i + 1) links.now }
    requires allowed { rows.old.pairs ≤ rows.old.most }
    ensures twin { MatchOption result (rows.new.pairs ≡ rows.new.most) (λ link. IsTwin (rows_at rows.old.table.rows chosen.now) i link) }
    ensures pairs { rows.new.pairs ≤ rows.new.most }
    ensures most { rows.new.most ≡ rows.old.most }
    ensures same { rows.new.table ≡ rows.old.table }
    ensures passes { rows.new.passes ≡ rows.old.passes }
{
    let row = chosen[i as usize];
    let mut link = links[i as usize];
    while link != 0 {
        if rows.are_used_up() {
            return None;
        }
        let earlier = link as usize - 1;
        if rows.are_equal(chosen[earlier], row) {
            return Some(link);
        }
        link = links[earlier];
    }
    Some(0)
}

/// Puts in each link's place a link to the latest chosen row before that is equal, or none, and answers whether there
/// is such a row; nothing where no more pairs may be compared. The last rows come first, since a chain leads through the
/// links of the rows before.
fn keep_twins(links: &mut [u32], chosen: &[u32], rows: &mut CountedRows<'_>) -> Option<bool>
    requires chosen { All (λ p. p < rows.old.table.count) chosen.now }
    requires few { length chosen.now < 2 ^ 32 }
    requires long { length links.old ≡ length chosen.now }
    requires chains { AreChains (rows_at rows.old.table.rows chosen.now) (length chosen.now) links.old }
    requires allowed { rows.old.pairs ≤ rows.old.most }
    ensures twins { MatchOption result (rows.new.pairs ≡ rows.new.most) (λ some.
        AreTwins (rows_at rows.old.table.rows chosen.now) (length chosen.now) links.new
        × (some ≡ false → AreUnlike (rows_at rows.old.table.rows chosen.now) (length chosen.now))) }
    ensures pairs { rows.new.pairs ≤ rows.new.most }
    ensures most { rows.new.most ≡ rows.old.most }
    ensures same { rows.new.table ≡ rows.old.table }
    ensures passes { rows.new.passes ≡ rows.old.passes }
{
    let mut some = false;
    for i in (0..chosen.len() as u32).rev() {
        let twin = twin_of(links, chosen, i, rows)?;
        links[i as usize] = twin;
        if twin != 0 {
            some = true;
        }
    }
    Some(some)
}

/// The links of all `count` rows, from those of the chosen ones, which are links to places among these.
fn spread(alloc: Global, count: u32, chosen: &[u32], links: &[u32]) -> Result<Vec<u32>, Memory>
    requires chosen { All (λ p. p < count) chosen.now }
    requires few { count ≤ 3 * MAX_FACES }
    requires rising { AreRising chosen.now }
    requires long { length links.now ≡ length chosen.now }
    requires back { (j : ℕ) → j < length chosen.now → slice_index links.now j ≤ j }
    ensures spread { IfOk result (λ twins. AreSpread chosen.now links.now twins.items (length chosen.now)) }
    ensures long { IfOk result (λ twins. length twins.items ≡ count) }
{
    let mut twins = vec![in alloc; 0; count as usize]?;
    for i in 0..chosen.len() {
        let link = links[i];
        if link == 0 {
            continue;
        }
        twins[chosen[i] as usize] = chosen[link as usize - 1] + 1;
    }
    Ok(twins)
}

/// The links of chosen rows, each to the latest one before it in the bucket of its hash, of one to two buckets a row.
fn links_of(alloc: Global, hashes: &[u32], chosen: &[u32]) -> Result<Vec<u32>, Memory>
    requires chosen { All (λ p. p < length hashes.now) chosen.now }
    requires few { length chosen.now ≤ 3 * MAX_FACES }
    ensures chains { IfOk result (λ links. (rows : List (List ℤ)) → AreHashes rows (length hashes.now) hashes.now →
        AreChains (rows_at rows chosen.now) (length chosen.now) links.items) }
    ensures long { IfOk result (λ links. length links.items ≡ length chosen.now) }
{
    let buckets = (chosen.len() as u32 + 1).next_power_of_two();
    let mut tops = vec![in alloc; 0; buckets as usize]?;
    link_rows(alloc, hashes, chosen, buckets - 1, tops.as_mut_slice())
}

/// Rows among which are all that equal others.
#[derive(Drop)]
struct LinkedRows {
    /// The numbers of the chosen rows.
    chosen: Vec<u32>,
    /// Of each of them a link to the latest one before it in the bucket of its hash.
    links: Vec<u32>,
}

/// The rows that are chosen by their hashes, linked by their buckets. Makes a pass.
fn linked_rows(alloc: Global, rows: &mut CountedRows<'_>) -> Result<LinkedRows, Memory>
    requires few { rows.old.table.count ≤ 3 * MAX_FACES }
    requires begun { rows.old.passes + 1 < 2 ^ 64 }
    ensures chosen { IfOk result (λ linked. AreChosen rows.old.table.rows rows.old.table.count linked.chosen.items) }
    ensures chains { IfOk result (λ linked. AreChains (rows_at rows.old.table.rows linked.chosen.items) (length linked.chosen.items) linked.links.items) }
    ensures long { IfOk result (λ linked. length linked.links.items ≡ length linked.chosen.items) }
    ensures counted { rows.new ≡ record rows.old { passes = rows.old.passes + 1 } }
{
    let hashes = rows.hashes(alloc)?;
    let chosen = chosen_hashes(alloc, hashes.as_slice())?;
    let links = links_of(alloc, hashes.as_slice(), chosen.as_slice())?;
    Ok(LinkedRows { chosen, links })
}

/// The links of all rows to earlier ones that are equal, from chosen rows that are linked by their buckets: as `twins_of`.
fn twins_among(
    alloc: Global,
    chosen: &[u32],
    links: &mut [u32],
    rows: &mut CountedRows<'_>,
) -> Result<Option<Vec<u32>>, Memory>
    requires few { rows.old.table.count ≤ 3 * MAX_FACES }
    requires chosen { AreChosen rows.old.table.rows rows.old.table.count chosen.now }
    requires long { length links.old ≡ length chosen.now }
    requires chains { AreChains (rows_at rows.old.table.rows chosen.now) (length chosen.now) links.old }
    requires allowed { rows.old.pairs ≤ rows.old.most }
    requires begun { rows.old.passes < 2 ^ 63 }
    ensures found { IfOk result (λ found. MatchOption found (AreUnlike rows.old.table.rows rows.old.table.count)
        (λ twins. AreTwins rows.old.table.rows rows.old.table.count twins.items × (length twins.items ≡ rows.old.table.count))) }
    ensures pairs { rows.new.pairs ≤ rows.old.most }
    ensures passes { rows.new.passes ≤ rows.old.passes + rows.old.table.width }
    ensures same { rows.new.table ≡ rows.old.table }
{
    let count = rows.count();
    match keep_twins(links, chosen, rows) {
        None => twins_by_columns(alloc, rows),
        Some(false) => Ok(None),
        Some(true) => Ok(Some(spread(alloc, count, chosen, links)?)),
    }
}

/// Of each row a link to an earlier row that equals it, or none: a link to row r is r + 1, and 0 is none. No links at all
/// where no two rows are equal. Only the rows that are chosen by their hashes are compared, a few pairs for each at most:
/// where rows that aren't equal share so many buckets that this isn't enough, all rows are numbered column by column
/// instead. So no more pairs are compared than eight for each row and 64, and no more passes are made than one for each
/// integer of a row and one more.
pub(crate) fn twins_of(
    alloc: Global,
    rows: &mut CountedRows<'_>,
) -> Result<Option<Vec<u32>>, Memory>
    requires few { rows.old.table.count ≤ 3 * MAX_FACES }
    requires begun { (rows.old.pairs < 2 ^ 62) × (rows.old.passes < 2 ^ 62) }
    ensures found { IfOk result (λ found. MatchOption found (AreUnlike rows.old.table.rows rows.old.table.count)
        (λ links. AreTwins rows.old.table.rows rows.old.table.count links.items × (length links.items ≡ rows.old.table.count))) }
    ensures pairs { rows.new.pairs ≤ pairs_allowed rows.old.pairs rows.old.table.count }
    ensures passes { rows.new.passes ≤ rows.old.passes + (rows.old.table.width + 1) }
    ensures same { rows.new.table ≡ rows.old.table }
{
    let LinkedRows { chosen, mut links } = linked_rows(alloc, rows)?;
    let chosen = chosen.as_slice();
    rows.allow(chosen.len() as u32);
    twins_among(alloc, chosen, links.as_mut_slice(), rows)
}
