//! Lines of points.

ghost use Rattle.std.specs.Prelude.{◌≡◌, ◌++◌, ◌≤◌, Some, length, IfOk, MatchBool, MatchResult};
ghost use Rattle.drc_base.specs.Refusals.{Refuses};
ghost use Rattle.drc_base.specs.declared.kinds.Kind.TheVariants.{PlyNumber};
ghost use Rattle.ply_text.specs.Faults.{or_refuse};
ghost use Rattle.ply_text.specs.Tokens.{tokens_of};
ghost use Rattle.ply_mesh.specs.Body.{numbers_of, row_read, texts, Appends, AppendsSome};

use crate::numbers::{number_at, number_of};
use attr_heads::Bounds;
use drc_base::{Fault, Kind, Memory, Refusal};
use ply_text::{first_tokens, is_at_end};
use std::alloc::Global;

/// Appends the numbers of a line of points, read in place. False leaves the list as it was, and says
/// nothing about the line.
#[tactic(auto, using(crate::proofs::RowSteps::row_begun, crate::proofs::RowSteps::row_more, crate::proofs::RowSteps::row_done, crate::proofs::RowSteps::row_undone))]
fn row_in_place(columns: &[Bounds], line: &[u8], out: &mut Vec<i32>) -> Result<bool, Memory>
    ensures { IfOk result (λ whole. MatchBool whole
        (AppendsSome (numbers_of columns.now (tokens_of line.now)) out.old.items out.new.items)
        (out.new.items ≡ out.old.items)) }
{
    let before = out.len();
    let mut place = 0;
    for j in 0..columns.len() {
        let Some(found) = number_at(line, place, columns[j]) else {
            out.truncate(before);
            return Ok(false);
        };
        out.push(found.0)?;
        place = found.1;
    }
    if !is_at_end(line, place) {
        out.truncate(before);
        return Ok(false);
    }
    Ok(true)
}

/// Appends the numbers of tokens, one for each column, or gives PlyNumber.
fn put_numbers(
    columns: &[Bounds],
    found: &[&[u8]],
    at: u64,
    out: &mut Vec<i32>,
) -> Result<(), Refusal>
    requires { length found.now ≡ length columns.now }
    ensures { MatchResult result
        (λ _. Appends (or_refuse PlyNumber at (numbers_of columns.now (texts found.now))) out.old.items out.new.items)
        (λ e. Refuses (or_refuse PlyNumber at (numbers_of columns.now (texts found.now))) e) }
{
    for j in 0..columns.len() {
        let Some(value) = number_of(columns[j], found[j]) else {
            return Err(Refusal::Fault(Fault::new(Kind::PlyNumber, at)));
        };
        out.push(value)?;
    }
    Ok(())
}

/// Appends the numbers of a line of points, or gives its fault.
#[tactic(auto, using(crate::proofs::RowSteps::row_of_tokens, crate::proofs::RowSteps::row_counts))]
fn row_by_tokens(
    alloc: Global,
    columns: &[Bounds],
    at: u64,
    line: &[u8],
    out: &mut Vec<i32>,
) -> Result<(), Refusal>
    ensures { MatchResult result
        (λ _. Appends (row_read columns.now at (tokens_of line.now)) out.old.items out.new.items)
        (λ e. Refuses (row_read columns.now at (tokens_of line.now)) e) }
{
    let found = first_tokens(alloc, line, columns.len() + 1)?;
    if found.as_slice().len() != columns.len() {
        return Err(Refusal::Fault(Fault::new(Kind::PlyRow, at)));
    }
    put_numbers(columns, found.as_slice(), at, out)
}

/// Appends the numbers of line number `at`, one for each column. PlyRow where another number of
/// tokens stands there, else PlyNumber where a token is no number within its bounds.
#[tactic(auto, using(crate::proofs::RowSteps::row_whole))]
pub(crate) fn read_row(
    alloc: Global,
    columns: &[Bounds],
    at: u64,
    line: &[u8],
    out: &mut Vec<i32>,
) -> Result<(), Refusal>
    ensures { MatchResult result
        (λ _. Appends (row_read columns.now at (tokens_of line.now)) out.old.items out.new.items)
        (λ e. Refuses (row_read columns.now at (tokens_of line.now)) e) }
{
    if row_in_place(columns, line, out)? {
        return Ok(());
    }
    row_by_tokens(alloc, columns, at, line, out)
}
