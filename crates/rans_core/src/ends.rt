//! The two ends of a coder's bytes, and the refill between two symbols.

ghost use Rattle.std.specs.Prelude.{◌≡◌, ℕ, ◌+◌, ◌*◌, ◌^◌, ◌<◌, ◌≤◌, length, IfSome, MatchOption, Some, None};
ghost use Rattle.rans_core.specs.Coder.{CoderState, end_bytes, low_bytes, joined_number, refilled, started, unread};

use arrayvec::ArrayVec;

/// Joins `more` bytes below the place `left` to the number `high`, the last byte first. `None` exactly
/// where fewer are left.
fn join_bytes(bytes: &[u8], left: usize, more: usize, high: u32) -> Option<(u32, usize)>
    requires left { left ≤ length bytes.now }
    requires more { more ≤ 3 }
    requires high { high < 64 }
    ensures joins { MatchOption result (joined_number more high (unread bytes.now left) ≡ None)
        (λ r. joined_number more high (unread bytes.now left) ≡ Some (record { number = r.0; bytes = unread bytes.now r.1 })) }
    ensures bounds { IfSome result (λ r. (r.0 < 2 ^ 30) × (r.1 ≤ left)) }
{
    if left < more {
        return None;
    }
    let mut number = high;
    for k in 0..more {
        number = number * 256 + u32::from(bytes[left - 1 - k]);
    }
    Some((number, left - more))
}

/// While the number is below the base and bytes are left below the place `left`, takes the last of
/// them as the number's new low byte. Gives the number and the place after that.
pub fn refill(bytes: &[u8], left: usize, number: u32, base: u32) -> (u32, usize)
    requires left { left ≤ length bytes.now }
    requires base { base ≤ 2 ^ 22 }
    requires number { number < 256 * base }
    ensures refills { refilled base number (unread bytes.now left)
        ≡ record { number = result.0; bytes = unread bytes.now result.1 } }
    ensures number { result.0 < 256 * base }
    ensures left { result.1 ≤ left }
{
    let mut full = number;
    let mut place = left;
    while full < base && place > 0 {
        place -= 1;
        full = full * 256 + u32::from(bytes[place]);
    }
    (full, place)
}

/// The first number of a coder from its last bytes, and how many bytes stand before them. The top two
/// bits of the last byte are the tag: how many bytes there are besides it. `None` exactly where there
/// is no byte, the tag isn't below `tags`, bytes are missing, or the number is not below 256 bases.
pub fn first_state(bytes: &[u8], tags: u32, base: u32) -> Option<(u32, usize)>
    requires base { base ≤ 2 ^ 22 }
    ensures starts { MatchOption result (started tags base bytes.now ≡ None)
        (λ r. started tags base bytes.now ≡ Some (record { number = r.0; bytes = unread bytes.now r.1 })) }
    ensures bounds { IfSome result (λ r. (base ≤ r.0) × (r.0 < 256 * base) × (r.1 < length bytes.now)) }
{
    let last = *bytes.last()?;
    let tag = u32::from(last >> 6);
    if tag >= tags {
        return None;
    }
    let (number, left) = join_bytes(bytes, bytes.len() - 1, tag as usize, u32::from(last & 63))?;
    let number = base + number;
    if number >= 256 * base {
        return None;
    }
    Some((number, left))
}

/// The low `size` bytes of a number, the lowest first.
fn low_bytes(size: usize, number: u32) -> ArrayVec<u8, 4>
    requires { size ≤ 4 }
    ensures { result.items ≡ low_bytes size number }
{
    let mut out = ArrayVec::new();
    let mut rest = number;
    for _ in 0..size {
        out.push((rest & 255) as u8);
        rest >>= 8;
    }
    out
}

/// The last bytes of a coder whose number is `number` above its base: one to four bytes, the low one
/// first, with a tag of how many there are besides the last in the top two bits.
#[tactic(auto, unfolding(crate::specs::Coder::end_bytes))]
pub fn end_bytes(number: u32) -> ArrayVec<u8, 4>
    requires { number < 2 ^ 30 }
    ensures { result.items ≡ end_bytes number }
{
    if number < 1 << 6 {
        low_bytes(1, number)
    } else if number < 1 << 14 {
        low_bytes(2, number + (1 << 14))
    } else if number < 1 << 22 {
        low_bytes(3, number + (2 << 22))
    } else {
        low_bytes(4, number + (3 << 30))
    }
}
