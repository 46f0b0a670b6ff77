//! Rows that are looked at by counted calls alone, so that what a search for equal rows costs can't be hidden: no call
//! lends them.

use crate::matching::same_row;
use crate::row_hash::row_hashes;
use crate::row_numbers::column_bits;
use crate::row_rules::stored_row;
use drc_base::Memory;
use std::alloc::Global;
use std::marker::Model;

/// How many pairs of rows may be compared for each row. Rows seldom share a bucket with more than a few unlike ones,
/// unless they are made to.
pub(crate) const PAIRS_A_ROW: u64 = 8;

/// How many pairs may be compared besides, so that short chains are searched to their ends.
pub(crate) const MORE_PAIRS: u64 = 64;

/// Rows, and how they were looked at. Contracts see the rows as a list, beside the numbers of pairs compared, of pairs
/// that may be compared, and of passes, each of which looks once at each row.
#[derive(Drop)]
pub(crate) struct CountedRows<'a> {
    cells: &'a [i32],
    width: u32,
    count: u32,
    pairs: u64,
    most: u64,
    passes: u64,
}

impl<'a> Model for CountedRows<'a> {
    ghost use Rattle.std.specs.Prelude.{◌≡◌, ◌*◌, ◌<◌, ◌≤◌, length};
    ghost use Rattle.mesh_model.specs.CountedRows.{LookedAt};
    ghost use Rattle.mesh_model.specs.Parts.{rows_of};

    ghost Value = { LookedAt };

    ghost view = { λ r. record {
      table = record { rows = rows_of r.width r.cells.now; width = r.width; count = r.count };
      pairs = r.pairs;
      most = r.most;
      passes = r.passes;
    } };

    ghost invariant = { λ r. (length r.cells.now ≡ r.count * r.width) × (0 < r.width) };
}

impl<'a> CountedRows<'a> {
    ghost use Rattle.std.specs.Prelude.{◌≡◌, ◌+◌, ◌*◌, ◌<◌, ◌≤◌, ◌^◌, ◌↔◌, [], IfOk, IsTrue, length, slice_index_or};
    ghost use Rattle.mesh_model.specs.CountedRows.{AreWide, pairs_allowed};
    ghost use Rattle.mesh_model.specs.Parts.{rows_of};
    ghost use Rattle.mesh_model.specs.RowIndex.{AreHashes};
    ghost use Rattle.mesh_model.specs.RowNumbers.{IsColumn};

    /// Rows of `width` integers, not looked at yet, no pair of which may be compared.
    pub(crate) fn new(cells: &'a [i32], width: u32, count: u32) -> CountedRows<'a>
        requires whole { length cells.now ≡ count * width }
        requires wide { 0 < width }
        ensures { result ≡ record { table = record { rows = rows_of width cells.now; width = width; count = count }; pairs = 0; most = 0; passes = 0 } }
    {
        CountedRows {
            cells,
            width,
            count,
            pairs: 0,
            most: 0,
            passes: 0,
        }
    }

    /// How many rows there are.
    #[tactic(auto, using(crate::proofs::Rows::row_long))]
    pub(crate) fn count(&self) -> u32
        ensures value { result ≡ self.now.table.count }
        ensures each { AreWide self.now.table }
    {
        self.count
    }

    /// How many integers a row has.
    #[tactic(auto, using(crate::proofs::Rows::row_long))]
    pub(crate) fn width(&self) -> u32
        ensures value { result ≡ self.now.table.width }
        ensures wide { 0 < result }
        ensures each { AreWide self.now.table }
    {
        self.width
    }

    /// Allows as many more pairs as `count` rows may take.
    pub(crate) fn allow(&mut self, count: u32)
        requires { self.old.pairs < 2 ^ 62 }
        ensures { self.new ≡ record self.old { most = pairs_allowed self.old.pairs count } }
    {
        self.most = self.pairs + (PAIRS_A_ROW * u64::from(count) + MORE_PAIRS);
    }

    /// Whether no more pairs may be compared.
    pub(crate) fn are_used_up(&self) -> bool
        ensures { IsTrue result ↔ (self.now.pairs ≡ self.now.most) }
    {
        self.pairs == self.most
    }

    /// Whether two rows are equal: one pair more.
    #[inline(always)]
    pub(crate) fn are_equal(&mut self, i: u32, j: u32) -> bool
        requires more { self.old.pairs < self.old.most }
        requires first { i < self.old.table.count }
        requires second { j < self.old.table.count }
        ensures equal { IsTrue result ↔ (slice_index_or self.old.table.rows i [] ≡ slice_index_or self.old.table.rows j []) }
        ensures counted { self.new ≡ record self.old { pairs = self.old.pairs + 1 } }
    {
        self.pairs += 1;
        let row = stored_row(self.cells, self.width, self.count, i);
        same_row(row, stored_row(self.cells, self.width, self.count, j))
    }

    /// The hash of each row: one pass more.
    pub(crate) fn hashes(&mut self, alloc: Global) -> Result<Vec<u32>, Memory>
        requires { self.old.passes + 1 < 2 ^ 64 }
        ensures hashes { IfOk result (λ hashes. AreHashes self.old.table.rows self.old.table.count hashes.items) }
        ensures counted { self.new ≡ record self.old { passes = self.old.passes + 1 } }
    {
        self.passes += 1;
        row_hashes(alloc, self.width, self.count, self.cells)
    }

    /// Integer `j` of each row, by its bits: one pass more.
    pub(crate) fn column(&mut self, alloc: Global, j: u32) -> Result<Vec<u32>, Memory>
        requires begun { self.old.passes + 1 < 2 ^ 64 }
        requires integer { j < self.old.table.width }
        ensures column { IfOk result (λ bits. IsColumn self.old.table.rows j bits.items self.old.table.count) }
        ensures counted { self.new ≡ record self.old { passes = self.old.passes + 1 } }
    {
        self.passes += 1;
        column_bits(alloc, self.width, self.count, self.cells, j)
    }
}
