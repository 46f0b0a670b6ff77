//! Decimal numbers at a place of a buffer.

ghost use Rattle.std.specs.Prelude.{◌≡◌, ◌+◌, ◌≤◌, ◌++◌, ◌∷◌, [], length, take};
ghost use Rattle.std.specs.Fmt.{decimal, signed_decimal};

use itoa::write_digits;

/// The place behind the digits of a number, and the bytes that are copied from their start on, in one
/// piece of fixed length.
const PIECE: usize = 16;

/// Writes the digits of `n` from `at` on, and answers the place behind them. What stood behind them may
/// be overwritten.
#[inline(always)]
fn put_digits(n: u32, buf: &mut [u8], at: usize) -> usize
    requires { at + 16 ≤ length buf.old }
    ensures text { take result buf.new ≡ take at buf.old ++ decimal n }
    ensures few { result ≤ at + 10 }
{
    let mut digits = [0u8; 2 * PIECE];
    let start = write_digits(n as u64, &mut digits, PIECE);
    buf[at..at + PIECE].copy_from_slice(&digits[start..start + PIECE]);
    at + (PIECE - start)
}

/// Writes the decimal text of `n` and the byte `end` behind it from `at` on, and answers the place
/// behind both. It is at most 11 bytes, and may overwrite the 16 bytes from `at` on.
#[inline(always)]
pub fn put_unsigned(n: u32, end: u8, buf: &mut [u8], at: usize) -> usize
    requires { at + 16 ≤ length buf.old }
    ensures text { take result buf.new ≡ take at buf.old ++ (decimal n ++ end ∷ []) }
    ensures few { result ≤ at + 11 }
{
    let after = put_digits(n, buf, at);
    buf[after] = end;
    after + 1
}

/// Writes the decimal text of `v`, with a `-` where it is below 0, and the byte `end` behind it from `at`
/// on, and answers the place behind both. It is at most 12 bytes, and may overwrite the 17 bytes from
/// `at` on.
#[inline(always)]
pub fn put_signed(v: i32, end: u8, buf: &mut [u8], at: usize) -> usize
    requires { at + 17 ≤ length buf.old }
    ensures text { take result buf.new ≡ take at buf.old ++ (signed_decimal v ++ end ∷ []) }
    ensures few { result ≤ at + 12 }
{
    if v < 0 {
        buf[at] = b'-';
        return put_unsigned(v.unsigned_abs(), end, buf, at + 1);
    }
    put_unsigned(v as u32, end, buf, at)
}
