//! Lines of points that are read from the rest of a text, without a search for their end.

ghost use Rattle.std.specs.Prelude.{◌≡◌, ◌<◌, ◌≤◌, true, length, take, IfOk, IfSome, MatchOption};
ghost use Rattle.ply_text.specs.InPlace.{IsNumberAt};
ghost use Rattle.attr_heads.specs.Bounds.{in_bounds};
ghost use Rattle.ply_mesh.specs.Ahead.{IsRowAhead};

use attr_heads::Bounds;
use drc_base::Memory;
use ply_text::integer_ahead;

/// The number at a place, if it lies within bounds, and the place of the byte after it.
#[inline(always)]
fn number_ahead(text: &[u8], place: usize, bounds: Bounds) -> Option<(i32, usize)>
    requires { place ≤ length text.now }
    ensures number { IfSome result (λ r. IsNumberAt text.now place r.1 r.0) }
    ensures more { IfSome result (λ r. r.1 < length text.now) }
    ensures bounds { IfSome result (λ r. in_bounds bounds r.0 ≡ true) }
{
    let found = integer_ahead(text, place)?;
    if !bounds.hold(found.0) {
        return None;
    }
    Some(found)
}

/// Appends the numbers of the first line, and answers the place of its LF. Where it answers None, what was
/// there stands in front of what was appended.
#[tactic(auto, using(crate::proofs::AheadSteps::ahead_begun, crate::proofs::AheadSteps::ahead_more, crate::proofs::AheadSteps::ahead_last, crate::proofs::AheadSteps::ahead_front, crate::proofs::AheadSteps::row_none))]
fn row_so_far(columns: &[Bounds], text: &[u8], out: &mut Vec<i32>) -> Result<Option<usize>, Memory>
    ensures { IfOk result (λ found. MatchOption found
        (take (length out.old.items) out.new.items ≡ out.old.items)
        (λ end. IsRowAhead columns.now text.now end out.old.items out.new.items)) }
{
    let mut place = 0;
    for j in 0..columns.len() {
        let Some(found) = number_ahead(text, place, columns[j]) else {
            return Ok(None);
        };
        out.push(found.0)?;
        let byte = text[found.1];
        if byte == b'\n' && j + 1 == columns.len() {
            return Ok(Some(found.1));
        }
        if byte != b' ' {
            return Ok(None);
        }
        place = found.1 + 1;
    }
    Ok(None)
}

/// Appends the numbers of the first line, and answers the place of its LF. None leaves the list as it was,
/// and says nothing about the line.
pub(crate) fn row_ahead(
    columns: &[Bounds],
    text: &[u8],
    out: &mut Vec<i32>,
) -> Result<Option<usize>, Memory>
    ensures { IfOk result (λ found. MatchOption found
        (out.new.items ≡ out.old.items)
        (λ end. IsRowAhead columns.now text.now end out.old.items out.new.items)) }
{
    let before = out.len();
    match row_so_far(columns, text, out)? {
        Some(end) => Ok(Some(end)),
        None => {
            out.truncate(before);
            Ok(None)
        }
    }
}
