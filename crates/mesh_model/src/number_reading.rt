//! Decimal numbers in their one spelling, read at a place of a text.

ghost use Rattle.std.specs.Prelude.{◌≡◌, ◌+◌, ◌<◌, ◌≤◌, false, length, drop, option_map};
ghost use Rattle.mesh_model.specs.NumberText.{IsReadAt, behind_byte, digits_then, is_digit, number_then};

/// Whether this byte is a decimal digit.
#[inline(always)]
fn is_digit(byte: u8) -> bool
    ensures { result ≡ is_digit byte }
{
    byte >= b'0' && byte <= b'9'
}

/// The number of the digits at `at` and the place behind the byte `end` that follows them. No digits are
/// 0, and zeros may lead. None where another byte or none follows, or the number isn't below 2^32.
#[inline(always)]
fn digits_then(bytes: &[u8], at: usize, end: u8) -> Option<(u32, usize)>
    requires { at ≤ length bytes.now }
    ensures { IsReadAt bytes.now (digits_then end 0 (drop at bytes.now)) result }
{
    let mut value: u64 = 0;
    for i in at..bytes.len() {
        let byte = bytes[i];
        if !is_digit(byte) {
            return if byte == end {
                Some((value as u32, i + 1))
            } else {
                None
            };
        }
        value = value * 10 + (byte - b'0') as u64;
        if value > u32::MAX as u64 {
            return None;
        }
    }
    None
}

/// Zero and the place behind the byte `end`, where it stands right behind the zero at `at`.
#[inline(always)]
fn zero_then(bytes: &[u8], at: usize, end: u8) -> Option<(u32, usize)>
    requires { at < length bytes.now }
    ensures { IsReadAt bytes.now (option_map (λ rest. (0, rest)) (behind_byte end (drop (at + 1) bytes.now))) result }
{
    let alone = at + 1 < bytes.len() && bytes[at + 1] == end;
    if alone { Some((0, at + 2)) } else { None }
}

/// The number that stands at `at` in its one spelling, decimal and without leading zeros but for `0`
/// itself, and the place behind the byte `end`, which is no digit and stands right behind the number.
/// None where no such number below 2^32 or another byte stands there.
#[inline(always)]
pub fn read_number(bytes: &[u8], at: usize, end: u8) -> Option<(u32, usize)>
    requires place { at ≤ length bytes.now }
    requires end { is_digit end ≡ false }
    ensures { IsReadAt bytes.now (number_then end (drop at bytes.now)) result }
{
    if at == bytes.len() {
        return None;
    }
    let first = bytes[at];
    if !is_digit(first) {
        return None;
    }
    if first == b'0' {
        return zero_then(bytes, at, end);
    }
    digits_then(bytes, at, end)
}
