//! Reading the text of a renumbering.

ghost use Rattle.std.specs.Prelude.{◌≡◌, ◌+◌, ◌≤◌, length, drop, MatchResult, Ok, Err};
ghost use Rattle.drc_base.specs.declared.faults.Fault.{Fault as AnyFault};
ghost use Rattle.drc_base.specs.declared.faults.Refusal.TheVariants as refusal;
ghost use Rattle.drc_base.specs.Refusals.{Answers};
ghost use Rattle.mesh_model.specs.MapRead.{GivesAt, map_head_at, limit_kind, limited_head_at, map_read, most_rows, map_row_at, rows_at, words_then};
ghost use Rattle.mesh_model.specs.NumberText.{IsReadAt};

use crate::number_reading::read_number;
use crate::renumberings::Renumber;
use drc_base::{Fault, Kind, MAX_FACES, MAX_POINTS, Refusal, Sequence};
use std::alloc::Global;

/// The fewest bytes of the line of a row.
const ROW_BYTES: usize = 4;

/// A renumbering that was read from the front of some bytes.
#[derive(Debug, Drop)]
pub struct MapRead {
    /// Whether it is one of clouds, so that its rows name points; else they name faces.
    pub cloud: bool,
    /// Its rows.
    pub rows: Renumber,
    /// How many bytes were read.
    pub end: u64,
}

/// Whether the words at the front are those of a cloud, and the place behind them.
#[tactic(auto, unfolding(crate::specs::MapRead::words_then))]
fn words(bytes: &[u8]) -> Option<(bool, usize)>
    ensures { IsReadAt bytes.now (words_then bytes.now) result }
{
    if bytes.starts_with(b"map mesh ") {
        return Some((false, 9));
    }
    if bytes.starts_with(b"map cloud ") {
        return Some((true, 10));
    }
    None
}

/// Whether the first line is one of clouds, its number of rows, and the place behind it.
fn read_line(bytes: &[u8]) -> Option<((bool, u32), usize)>
    ensures { IsReadAt bytes.now (map_head_at bytes.now) result }
{
    let cloud = words(bytes)?;
    let count = read_number(bytes, cloud.1, b'\n')?;
    Some(((cloud.0, count.0), count.1))
}

/// The limit of the number of rows, and the kind of the fault above it.
fn limit(cloud: bool) -> (u32, Kind)
    ensures { result ≡ (most_rows cloud, limit_kind cloud) }
{
    if cloud {
        (MAX_POINTS, Kind::PointLimit)
    } else {
        (MAX_FACES, Kind::FaceLimit)
    }
}

/// The first line, with a number of rows that is within the limit.
#[tactic(auto, unfolding(crate::specs::MapRead::limited_head_at))]
fn read_head(bytes: &[u8]) -> Result<((bool, u32), usize), Fault>
    ensures { MatchResult result
        (λ head. (limited_head_at bytes.now ≡ Ok (head.0, drop head.1 bytes.now)) × (head.1 ≤ length bytes.now))
        (λ fault. limited_head_at bytes.now ≡ Err fault) }
{
    match read_line(bytes) {
        None => Err(Fault::new(Kind::MapForm, 1)),
        Some(head) => {
            let (most, kind) = limit(head.0.0);
            if head.0.1 > most {
                return Err(Fault::new(kind, 1));
            }
            Ok(head)
        }
    }
}

/// The row whose line stands at `at`, and the place behind the line.
#[inline(always)]
fn read_row(bytes: &[u8], at: usize) -> Option<((u32, u8), usize)>
    requires { at ≤ length bytes.now }
    ensures { IsReadAt bytes.now (map_row_at (drop at bytes.now)) result }
{
    let face = read_number(bytes, at, b' ')?;
    let turn = read_number(bytes, face.1, b'\n')?;
    if turn.0 > 2 {
        return None;
    }
    Some(((face.0, turn.0 as u8), turn.1))
}

/// So many rows whose lines stand one after another at `at`, the first of them in line 2, and the place
/// behind them. Room is reserved for no more rows than the bytes can hold.
fn read_rows(
    alloc: Global,
    bytes: &[u8],
    start: usize,
    count: u32,
) -> Result<(Vec<(u32, u8)>, usize), Refusal>
    requires { start ≤ length bytes.now }
    ensures { GivesAt (λ v. v.items) bytes.now (rows_at count 2 (drop start bytes.now)) result }
{
    let room = (count as usize).min((bytes.len() - start) / ROW_BYTES);
    let mut rows = Vec::with_capacity(alloc, room)?;
    let mut at = start;
    for i in 0..count {
        match read_row(bytes, at) {
            None => return Err(Refusal::Fault(Fault::new(Kind::MapForm, i as u64 + 2))),
            Some(row) => {
                rows.push(row.0)?;
                at = row.1;
            }
        }
    }
    Ok((rows, at))
}

/// Reads the text of a renumbering, as `map_text` writes it, at the front of some bytes, whatever follows: a
/// line `map mesh <n>` or `map cloud <n>`, then n lines `<face> <turn>`, with single spaces, turns up to 2,
/// numbers below 2^32 in decimal without leading zeros but for `0` itself, and each line with LF. MapForm at
/// the first line, from 1, that isn't such a line or is missing; FaceLimit or PointLimit at 1 where n is above
/// `MAX_FACES` or `MAX_POINTS`. The faults of the first line come before out of memory. The format is this project's
/// choice.
#[tactic(auto, unfolding(crate::specs::MapRead::map_read))]
pub fn read_map(alloc: Global, bytes: &[u8]) -> Result<MapRead, Refusal>
    ensures map { Answers (λ m. m) (map_read bytes.now) result }
    ensures early { (f : AnyFault) → limited_head_at bytes.now ≡ Err f → result ≡ Err (refusal.Fault f) }
{
    let head = read_head(bytes)?;
    let rows = read_rows(alloc, bytes, head.1, head.0.1)?;
    Ok(MapRead {
        cloud: head.0.0,
        rows: Renumber {
            rows: Sequence::from_vec(rows.0),
        },
        end: rows.1 as u64,
    })
}
