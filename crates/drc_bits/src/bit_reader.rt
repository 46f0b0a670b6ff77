//! Reading bits from bytes.

ghost use Rattle.std.specs.Prelude.{◌≡◌, ℕ, ◌+◌, ◌-◌, ◌*◌, ◌/◌, ◌%◌, ◌^◌, ◌<◌, ◌≤◌, ◌⊎◌, ◌↔◌, ◌++◌, length, drop, take, slice_index, IsTrue, Some, None};
ghost use Rattle.drc_bits.specs.Bits.{BitPlace, HasBuffer, after_bits, bits_left, bits_of, bytes_for, low_bits, next_bits};

use std::marker::Model;

/// A reader of bits from bytes, the lowest bit of each byte first. Contracts see it as a `BitPlace`: its
/// bytes, and how many bits were taken. Bits are kept in a buffer of 64. Draco Bitstream Specification
/// 2.2, section "Core types".
#[derive(Drop)]
pub struct BitReader<'a> {
    bytes: &'a [u8],
    next: usize,
    buffer: u64,
    count: u32,
}

impl<'a> Model for BitReader<'a> {
    ghost use Rattle.std.specs.Prelude.{◌≡◌, ◌-◌, ◌*◌, ◌^◌, ◌<◌, ◌≤◌, ◌++◌, length, drop};
    ghost use Rattle.drc_bits.specs.Bits.{BitPlace, HasBuffer};

    ghost Value = { BitPlace };

    ghost view = { λ r. record { bytes = r.bytes.now; taken = 8 * r.next - r.count } };

    ghost invariant = { λ r. HasBuffer r.bytes.now r.next r.buffer r.count };
}

/// The buffer with one byte more above its `count` bits.
fn with_byte(buffer: u64, count: u32, byte: u8) -> u64
    requires count { count ≤ 56 }
    requires buffer { buffer < 2 ^ count }
    ensures sum { result ≡ buffer + byte * 2 ^ count }
    ensures fits { result < 2 ^ (count + 8) }
{
    buffer | u64::from(byte) << count
}

/// The number of the four bytes from a place on, the first one lowest.
fn word_at(bytes: &[u8], at: usize) -> u32
    requires { at + 4 ≤ length bytes.now }
    ensures { result ≡ slice_index bytes.now at + 256 * (slice_index bytes.now (at + 1)
        + 256 * (slice_index bytes.now (at + 2) + 256 * slice_index bytes.now (at + 3))) }
{
    u32::from_le_bytes([bytes[at], bytes[at + 1], bytes[at + 2], bytes[at + 3]])
}

/// The buffer with four bytes more above its `count` bits.
fn with_word(buffer: u64, count: u32, word: u32) -> u64
    requires count { count ≤ 32 }
    requires buffer { buffer < 2 ^ count }
    ensures sum { result ≡ buffer + word * 2 ^ count }
    ensures fits { result < 2 ^ (count + 32) }
{
    buffer | u64::from(word) << count
}

/// Loads bytes above the bits of the buffer: four, or all where fewer are left. Gives the buffer, its
/// bits and the next byte.
fn load(bytes: &[u8], next: usize, buffer: u64, count: u32) -> (u64, u32, usize)
    requires count { count < 32 }
    requires holds { HasBuffer bytes.now next buffer count }
    ensures holds { HasBuffer bytes.now result.2 result.0 result.1 }
    ensures taken { 8 * result.2 - result.1 ≡ 8 * next - count }
    ensures loaded { (32 ≤ result.1) ⊎ (result.2 ≡ length bytes.now) }
{
    if bytes.len() - next >= 4 {
        return (
            with_word(buffer, count, word_at(bytes, next)),
            count + 32,
            next + 4,
        );
    }
    let mut buffer = buffer;
    let mut count = count;
    for at in next..bytes.len() {
        buffer = with_byte(buffer, count, bytes[at]);
        count += 8;
    }
    (buffer, count, bytes.len())
}

/// A buffer with at least `n` bits, or with all bits that are left. Gives the buffer, its bits and the
/// next byte.
fn filled(bytes: &[u8], next: usize, buffer: u64, count: u32, n: u32) -> (u64, u32, usize)
    requires n { n ≤ 32 }
    requires holds { HasBuffer bytes.now next buffer count }
    ensures holds { HasBuffer bytes.now result.2 result.0 result.1 }
    ensures taken { 8 * result.2 - result.1 ≡ 8 * next - count }
    ensures filled { result.1 < n → result.2 ≡ length bytes.now }
{
    if count < n {
        load(bytes, next, buffer, count)
    } else {
        (buffer, count, next)
    }
}

/// The low `n` bits of a buffer.
fn low_part(buffer: u64, n: u32) -> u32
    requires { n ≤ 32 }
    ensures { result ≡ buffer % 2 ^ n }
{
    (buffer & ((1 << n) - 1)) as u32
}

impl<'a> BitReader<'a> {
    /// A reader that begins at the lowest bit of the first byte.
    pub fn new(bytes: &'a [u8]) -> BitReader<'a>
        ensures { result ≡ record { bytes = bytes.now; taken = 0 } }
    {
        BitReader {
            bytes,
            next: 0,
            buffer: 0,
            count: 0,
        }
    }

    /// The next `n` bits, at most 32, as a number whose lowest bit comes first. `None` exactly where
    /// fewer bits are left; then the reader is unchanged. It takes no memory.
    #[inline(always)]
    pub fn bits(&mut self, n: u32) -> Option<u32>
        requires { n ≤ 32 }
        ensures value { result ≡ next_bits n self.old }
        ensures after { self.new ≡ after_bits n self.old }
    {
        let (buffer, count, next) = filled(self.bytes, self.next, self.buffer, self.count, n);
        self.next = next;
        if count < n {
            self.buffer = buffer;
            self.count = count;
            return None;
        }
        self.buffer = buffer >> n;
        self.count = count - n;
        Some(low_part(buffer, n))
    }

    /// Whether `n` more bits are left. It takes no bit and no memory.
    pub fn has(&self, n: u64) -> bool
        ensures { IsTrue result ↔ (n ≤ length (bits_left self.now)) }
    {
        let count = u64::from(self.count);
        n <= count || (n - count - 1) / 8 < (self.bytes.len() - self.next) as u64
    }

    /// How many bytes were begun: those with a bit that was taken.
    pub fn used(&self) -> usize
        ensures { result ≡ bytes_for self.now.taken }
    {
        self.next - (self.count / 8) as usize
    }
}
