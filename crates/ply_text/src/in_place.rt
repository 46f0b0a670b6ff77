//! Numbers of a line that are read in place, for long rows.

ghost use Rattle.std.specs.Prelude.{◌≡◌, ◌+◌, ◌<◌, ◌≤◌, ◌^◌, true, false, [], Some, length, drop, pos, neg_ℤ, slice_index, IfNone, IfSome, IsTrue};
ghost use Rattle.ply_text.specs.Tokens.{is_blank, tokens_of};
ghost use Rattle.ply_text.specs.Numbers.{first_integer, is_between};
ghost use Rattle.ply_text.specs.InPlace.{AreDigits, HasNoNumber};

use crate::blanks::{is_blank, token_start};

/// The number of the digits at `start`, if it is at most `most`, and the place after them, where a
/// blank or the end of the line stands. None exactly where what stands from `start` up to there is
/// nothing, not digits alone, or a number above `most`.
#[tactic(auto, using(crate::proofs::InPlace::no_digits, crate::proofs::InPlace::more_digits))]
fn digits_at(line: &[u8], start: usize, most: u32) -> Option<(u32, usize)>
    requires { start ≤ length line.now }
    ensures digits { IfSome result (λ r. AreDigits line.now start r.1 r.0) }
    ensures some { IfSome result (λ r. start < r.1) }
    ensures within { IfSome result (λ r. r.1 ≤ length line.now) }
    ensures stops { IfSome result (λ r. r.1 < length line.now → is_blank (slice_index line.now r.1) ≡ true) }
    ensures few { IfSome result (λ r. r.0 ≤ most) }
    ensures none { IfNone result (HasNoNumber line.now start most) }
{
    let limit = most as u64;
    let mut value: u64 = 0;
    for i in start..line.len() {
        let byte = line[i];
        if byte < b'0' || byte > b'9' {
            if i == start || !is_blank(byte) {
                return None;
            }
            return Some((value as u32, i));
        }
        let next = value * 10 + (byte - b'0') as u64;
        if next > limit {
            return None;
        }
        value = next;
    }
    if start == line.len() {
        return None;
    }
    Some((value as u32, line.len()))
}

/// The number from -n.
pub(crate) fn negated(n: u32) -> i32
    requires { n ≤ 2 ^ 31 }
    ensures { result ≡ neg_ℤ (pos n) }
{
    if n == 1 << 31 { i32::MIN } else { -(n as i32) }
}

/// The number of the first token from `place` on, and the place after it, if that token is a number
/// from `-below` up to `most`. None exactly where no token is left from `place` on, or the first one
/// is no number, or a number outside those bounds.
#[tactic(auto, using(crate::proofs::InPlace::plus_at, crate::proofs::InPlace::minus_at, crate::proofs::InPlace::between))]
pub fn int_at(line: &[u8], place: usize, below: u32, most: u32) -> Option<(i32, usize)>
    requires place { place ≤ length line.now }
    requires below { below ≤ 2 ^ 31 }
    requires most { most < 2 ^ 31 }
    ensures first { IfSome result (λ r. first_integer (tokens_of (drop place line.now)) ≡ Some (r.0, tokens_of (drop r.1 line.now))) }
    ensures within { IfSome result (λ r. r.1 ≤ length line.now) }
    ensures range { IfSome result (λ r. is_between below most r.0 ≡ true) }
    ensures none { IfNone result (IfSome (first_integer (tokens_of (drop place line.now))) (λ r. is_between below most r.0 ≡ false)) }
{
    let start = token_start(line, place);
    if start >= line.len() {
        return None;
    }
    if line[start] == b'-' {
        let found = digits_at(line, start + 1, below)?;
        return Some((negated(found.0), found.1));
    }
    let found = digits_at(line, start, most)?;
    Some((found.0 as i32, found.1))
}

/// Whether no token is left from `place` on.
#[tactic(auto, using(crate::proofs::Splitting::no_token, crate::proofs::Splitting::some_token))]
pub fn is_at_end(line: &[u8], place: usize) -> bool
    requires { place ≤ length line.now }
    ensures none { IsTrue result → tokens_of (drop place line.now) ≡ [] }
    ensures some { result ≡ false → 0 < length (tokens_of (drop place line.now)) }
{
    token_start(line, place) == line.len()
}
