//! Verdicts as C has them.

ghost use Rattle.std.specs.Prelude.{◌≡◌};
ghost use Rattle.drc_c.specs.Verified.{verdict_told, status_of};

use crate::statuses::{DONE, NOT_SAME};
use drc_verify::Verdict;

/// Whether a stream is a geometry by a map, and if not, what differs first.
#[repr(C)]
#[derive(Clone, Copy, Debug)]
pub struct DrcVerdict {
    /// The number of the verdict: 0 it is, 1 heads, 2 the number of rows, 3 a row, 4 a pair.
    pub kind: u32,
    /// The number of rows, or which row or side it is, from 0; 0 of the others.
    pub at: u64,
}

// As the header has it.
const _: () = prove!(size_of::<DrcVerdict>() == 16);

/// A verdict as C has it.
fn verdict_told(verdict: Verdict) -> DrcVerdict
    ensures { result ≡ verdict_told verdict }
{
    match verdict {
        Verdict::Same => DrcVerdict { kind: 0, at: 0 },
        Verdict::Heads => DrcVerdict { kind: 1, at: 0 },
        Verdict::Rows(count) => DrcVerdict { kind: 2, at: count },
        Verdict::Row(row) => DrcVerdict { kind: 3, at: row },
        Verdict::Pair(side) => DrcVerdict { kind: 4, at: side },
    }
}

/// The status of a verdict.
fn status_of(verdict: Verdict) -> u32
    ensures { result ≡ status_of verdict }
{
    match verdict {
        Verdict::Same => DONE,
        _ => NOT_SAME,
    }
}

/// Writes a verdict, and answers its status.
pub fn tell(verdict: Verdict, out: &mut DrcVerdict) -> u32
    ensures status { result ≡ status_of verdict }
    ensures verdict { out.new ≡ verdict_told verdict }
{
    *out = verdict_told(verdict);
    status_of(verdict)
}
