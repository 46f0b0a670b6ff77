//! Whole numbers as decimal text.

ghost use Rattle.std.specs.Prelude.{◌≡◌, ◌≤◌, ◌<◌, ◌^◌, ◌++◌, ◌-◌, pos, neg_ℤ, option_map, IfSome, OnOk, OnErr};
ghost use Rattle.std.specs.List.{list_all};
ghost use Rattle.std.specs.Fmt.{signed_decimal};
ghost use Rattle.ply_text.specs.Numbers.{is_digit, is_digits, natural_within, integer_of, only_if, is_between};

use drc_base::Memory;
use itoa::Buffer;

/// Appends the decimal text of `v`: a `-` for a number below 0, and the digits without leading zeros
/// (PLY 1.0). When it runs out of memory, `out` is as before.
pub fn put_int(out: &mut Vec<u8>, v: i64) -> Result<(), Memory>
    ensures ok { OnOk result (out.new.items ≡ out.old.items ++ signed_decimal v) }
    ensures err { OnErr result (out.new.items ≡ out.old.items) }
{
    let mut buffer = Buffer::new();
    out.extend_from_slice(buffer.format(v).as_bytes())?;
    Ok(())
}

pub(crate) fn is_digit(byte: u8) -> bool
    ensures { result ≡ is_digit byte }
{
    byte >= b'0' && byte <= b'9'
}

fn has_digits_only(text: &[u8]) -> bool
    ensures { result ≡ list_all is_digit text.now }
{
    for i in 0..text.len() {
        if !is_digit(text[i]) {
            return false;
        }
    }
    true
}

/// Whether the token is digits alone.
#[tactic(auto, unfolding(crate::specs::Numbers::is_digits))]
pub(crate) fn is_digits(token: &[u8]) -> bool
    ensures { result ≡ is_digits token.now }
{
    token.len() > 0 && has_digits_only(token)
}

/// The number of a token of digits alone, if it is at most `most`.
#[tactic(auto, using(crate::proofs::Digits::natural_within_is, crate::proofs::Digits::natural_within_nil))]
pub(crate) fn natural_within(token: &[u8], most: u64) -> Option<u64>
    requires { most ≤ 2 ^ 63 }
    ensures number { result ≡ natural_within most token.now }
    ensures small { IfSome result (λ n. n ≤ most) }
{
    if token.is_empty() {
        return None;
    }
    let tenth = most / 10;
    let mut value: u64 = 0;
    for i in 0..token.len() {
        let byte = token[i];
        if !is_digit(byte) || value > tenth {
            return None;
        }
        let next = value * 10 + (byte - b'0') as u64;
        if next > most {
            return None;
        }
        value = next;
    }
    Some(value)
}

/// The number `-n`.
fn negated(n: u64) -> i64
    requires { n ≤ 2 ^ 63 }
    ensures { result ≡ neg_ℤ (pos n) }
{
    if n == 1 << 63 { i64::MIN } else { -(n as i64) }
}

/// The number that stands below 0 by digits alone, if it is at least `-below`.
fn minus_within(digits: &[u8], below: u64) -> Option<i64>
    requires { below ≤ 2 ^ 63 }
    ensures { result ≡ option_map (λ n. neg_ℤ (pos n)) (natural_within below digits.now) }
{
    match natural_within(digits, below) {
        None => None,
        Some(n) => Some(negated(n)),
    }
}

fn plus_within(digits: &[u8], most: u64) -> Option<i64>
    requires { most < 2 ^ 63 }
    ensures { result ≡ option_map pos (natural_within most digits.now) }
{
    match natural_within(digits, most) {
        None => None,
        Some(n) => Some(n as i64),
    }
}

/// The number of a token of digits alone or of `-` and digits, if it is from `-below` up to `most`.
#[tactic(auto, using(crate::proofs::Signs::minus_is, crate::proofs::Signs::plus_is, crate::proofs::Signs::no_integer))]
pub(crate) fn integer_within(token: &[u8], below: u64, most: u64) -> Option<i64>
    requires below { below ≤ 2 ^ 63 }
    requires most { most < 2 ^ 63 }
    ensures { result ≡ only_if (is_between below most) (integer_of token.now) }
{
    if token.is_empty() {
        return None;
    }
    if token[0] == b'-' {
        return minus_within(&token[1..], below);
    }
    plus_within(token, most)
}

/// The number of a token: an optional `-` and digits, however many, leading zeros and `-0` too. None
/// exactly where the token is no number or its value is no i64 (PLY 1.0).
pub fn read_int(token: &[u8]) -> Option<i64>
    ensures { result ≡ only_if (is_between (2 ^ 63) (2 ^ 63 - 1)) (integer_of token.now) }
{
    integer_within(token, 1 << 63, i64::MAX as u64)
}
