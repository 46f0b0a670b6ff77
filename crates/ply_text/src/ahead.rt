//! Numbers of a line whose end isn't known yet, for long texts: only the end of the number is searched for.
//! Where these calls answer nothing, the line is read on its own.

ghost use Rattle.std.specs.Prelude.{◌≡◌, ◌+◌, ◌<◌, ◌≤◌, ◌^◌, length, pos, IfSome};
ghost use Rattle.ply_text.specs.InPlace.{AreDigits, IsNumberAt};

use crate::in_place::negated;

/// The most digits that are looked at.
const DIGITS: usize = 10;

/// The number of the digits at `start`, and the place of the byte after them. None where no digit stands
/// there, more than nine do, or fewer bytes than `DIGITS` are left.
#[inline(always)]
#[tactic(auto, using(crate::proofs::NumbersAhead::small))]
fn digits_ahead(text: &[u8], start: usize) -> Option<(u32, usize)>
    requires { start ≤ length text.now }
    ensures digits { IfSome result (λ r. AreDigits text.now start r.1 r.0) }
    ensures some { IfSome result (λ r. start < r.1) }
    ensures within { IfSome result (λ r. r.1 < length text.now) }
    ensures few { IfSome result (λ r. r.0 < 2 ^ 31) }
{
    if text.len() - start < DIGITS {
        return None;
    }
    let mut value: u64 = 0;
    for k in 0..DIGITS {
        let byte = text[start + k];
        if byte < b'0' || byte > b'9' {
            if k == 0 {
                return None;
            }
            return Some((value as u32, start + k));
        }
        value = value * 10 + (byte - b'0') as u64;
    }
    None
}

/// The number of digits alone that is written at `place`, and the place of the byte after it. None says
/// nothing about the number.
#[inline(always)]
#[tactic(auto, using(crate::proofs::NumbersAhead::natural_at))]
pub fn natural_ahead(text: &[u8], place: usize) -> Option<(u32, usize)>
    requires { place ≤ length text.now }
    ensures number { IfSome result (λ r. IsNumberAt text.now place r.1 (pos r.0)) }
    ensures more { IfSome result (λ r. r.1 < length text.now) }
{
    // For the prover alone, who shows the clauses of what was found.
    match digits_ahead(text, place) {
        None => None,
        Some(found) => Some(found),
    }
}

/// The number of digits, or of `-` and digits, that is written at `place`, and the place of the byte after
/// it. None says nothing about the number.
#[inline(always)]
#[tactic(auto, using(crate::proofs::NumbersAhead::natural_at, crate::proofs::NumbersAhead::minus_ahead))]
pub fn integer_ahead(text: &[u8], place: usize) -> Option<(i32, usize)>
    requires { place ≤ length text.now }
    ensures number { IfSome result (λ r. IsNumberAt text.now place r.1 r.0) }
    ensures more { IfSome result (λ r. r.1 < length text.now) }
{
    if place < text.len() && text[place] == b'-' {
        let found = digits_ahead(text, place + 1)?;
        return Some((negated(found.0), found.1));
    }
    let found = digits_ahead(text, place)?;
    Some((found.0 as i32, found.1))
}
