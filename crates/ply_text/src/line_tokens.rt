//! The tokens of a line as a list.

ghost use Rattle.std.specs.Prelude.{◌≡◌, ◌≤◌, length, map, take, IfOk, IsOk};
ghost use Rattle.ply_text.specs.Tokens.{tokens_of};

use crate::blanks::{token_end, token_start};
use drc_base::Memory;
use smallvec::SmallVec;
use std::alloc::Global;

/// The first tokens of a line, in order, but no more than `most`. A line of at most eight tokens takes no
/// memory, and the answer is then Ok (PLY 1.0; blanks are spaces and tabs).
pub fn first_tokens<'a>(
    alloc: Global,
    line: &'a [u8],
    most: usize,
) -> Result<SmallVec<&'a [u8], 8>, Memory>
    ensures tokens { IfOk result (λ found. map (λ token. token.now) found.items ≡ take most (tokens_of line.now)) }
    ensures few { length (tokens_of line.now) ≤ 8 → IsOk result }
{
    let mut found = SmallVec::new(alloc);
    let mut place = token_start(line, 0);
    while place < line.len() {
        if found.len() == most {
            return Ok(found);
        }
        let end = token_end(line, place);
        found.push(&line[place..end])?;
        place = token_start(line, end);
    }
    Ok(found)
}
