//! The first row that equals each row, by numbers.
//!
//! Rows are numbered by their first integer, then by that number and the next integer, and so on, until all rows
//! are told apart: each has the number of the first row with the same integers so far. So equal rows are found in
//! a few passes over each column, whatever the rows are, since no hash decides.

ghost use Rattle.std.specs.Prelude.{◌≡◌, ◌+◌, ◌-◌, ◌*◌, ◌<◌, ◌≤◌, ◌^◌, ℕ, pos, [], IfOk, MatchOption, length, get_or, slice_index};
ghost use Rattle.std.specs.Int.{w32, cast_signed, cast_unsigned};
ghost use Rattle.mesh_model.specs.Parts.{rows_of};
ghost use Rattle.mesh_model.specs.RowIndex.{AreTwins, AreUnlike};
ghost use Rattle.mesh_model.specs.RowNumbers.{AreFirstRows, IsColumn, first_link};

use crate::counted_rows::CountedRows;
use crate::row_rules::stored_row;
use drc_base::Memory;
use first_items::{are_apart, number_items};
use std::alloc::Global;

/// The bits of an integer.
fn bits_of(value: i32) -> u32
    ensures bits { result ≡ cast_unsigned w32 value }
    ensures value { cast_signed w32 result ≡ value }
{
    value.cast_unsigned()
}

/// Integer `j` of row `i`, by its bits.
fn bits_at(width: u32, count: u32, cells: &[i32], i: u32, j: u32) -> u32
    requires whole { length cells.now ≡ count * width }
    requires row { i < count }
    requires integer { j < width }
    ensures bits { result ≡ cast_unsigned w32 (get_or (get_or (rows_of width cells.now) i []) j (pos 0)) }
    ensures value { cast_signed w32 result ≡ get_or (get_or (rows_of width cells.now) i []) j (pos 0) }
{
    bits_of(stored_row(cells, width, count, i)[j as usize])
}

/// Integer `j` of each row, by its bits.
pub(crate) fn column_bits(
    alloc: Global,
    width: u32,
    count: u32,
    cells: &[i32],
    j: u32,
) -> Result<Vec<u32>, Memory>
    requires whole { length cells.now ≡ count * width }
    requires integer { j < width }
    ensures { IfOk result (λ bits. IsColumn (rows_of width cells.now) j bits.items count) }
{
    let mut bits = Vec::with_capacity(alloc, count as usize)?;
    for i in 0..count {
        bits.push_reserved(bits_at(width, count, cells, i, j));
    }
    Ok(bits)
}

/// For each row the number of the first one with the same first `columns` integers. Makes a pass for each of them at
/// most.
pub(crate) fn first_rows(
    alloc: Global,
    rows: &mut CountedRows<'_>,
    columns: u32,
) -> Result<Vec<u32>, Memory>
    requires narrow { columns ≤ rows.old.table.width }
    requires few { rows.old.table.count < 2 ^ 32 - 1 }
    requires begun { rows.old.passes + columns < 2 ^ 64 }
    ensures numbers { IfOk result (λ numbers. AreFirstRows rows.old.table.rows columns rows.old.table.count numbers.items) }
    ensures same { rows.new.table ≡ rows.old.table }
    ensures pairs { rows.new.pairs ≡ rows.old.pairs }
    ensures passes { rows.new.passes ≤ rows.old.passes + columns }
{
    let count = rows.count();
    let mut numbers: Vec<u32> = vec![in alloc; 0; count as usize]?;
    for j in 0..columns {
        if are_apart(numbers.as_slice()) {
            return Ok(numbers);
        }
        let bits = rows.column(alloc, j)?;
        numbers = number_items(alloc, numbers.as_slice(), bits.as_slice(), count)?;
    }
    Ok(numbers)
}

/// The link of row `i` by the first row that equals it: none where this is row `i` itself.
fn first_link(i: usize, first: u32) -> u32
    requires { first < 2 ^ 32 - 1 }
    ensures { result ≡ first_link i first }
{
    if first as usize == i { 0 } else { first + 1 }
}

/// Puts its link in the place of each row's first equal row.
fn link_firsts(firsts: &mut [u32])
    requires { (p : ℕ) → p < length firsts.old → slice_index firsts.old p < 2 ^ 32 - 1 }
    ensures { (p : ℕ) → p < length firsts.old → slice_index firsts.new p ≡ first_link p (slice_index firsts.old p) }
{
    for i in 0..firsts.len() {
        firsts[i] = first_link(i, firsts[i]);
    }
}

/// Of each row a link to the first row that equals it, or none where this is the row itself: a link to row r is r + 1,
/// and 0 is none. No links at all where no two rows are equal. Takes about five integers a row, and makes a pass for each
/// integer of a row at most.
pub(crate) fn twins_by_columns(
    alloc: Global,
    rows: &mut CountedRows<'_>,
) -> Result<Option<Vec<u32>>, Memory>
    requires few { rows.old.table.count < 2 ^ 32 - 1 }
    requires begun { rows.old.passes < 2 ^ 63 }
    ensures found { IfOk result (λ found. MatchOption found (AreUnlike rows.old.table.rows rows.old.table.count)
        (λ links. AreTwins rows.old.table.rows rows.old.table.count links.items × (length links.items ≡ rows.old.table.count))) }
    ensures same { rows.new.table ≡ rows.old.table }
    ensures pairs { rows.new.pairs ≡ rows.old.pairs }
    ensures passes { rows.new.passes ≤ rows.old.passes + rows.old.table.width }
{
    let width = rows.width();
    let mut links = first_rows(alloc, rows, width)?;
    if are_apart(links.as_slice()) {
        return Ok(None);
    }
    link_firsts(links.as_mut_slice());
    Ok(Some(links))
}
