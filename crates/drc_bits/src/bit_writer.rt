//! Writing bits into bytes.

ghost use Rattle.std.specs.Prelude.{◌≡◌, ℕ, ◌+◌, ◌-◌, ◌*◌, ◌/◌, ◌%◌, ◌^◌, ◌<◌, ◌≤◌, [], ◌++◌, length, replicate, slice_index, OnOk, OnErr, vec_len, vec_capacity};
ghost use Rattle.drc_bits.specs.Bits.{bits_at, bits_of, bytes_for, low_bits, low_bytes, packed};
ghost use Rattle.drc_bits.specs.Spells.{Spells};

use drc_base::Memory;
use std::alloc::Global;
use std::marker::Model;

/// A writer of bits into bytes, the lowest bit of each byte first. Contracts see it as the list of the
/// bits that were put. Bits are kept in a buffer of 64. Draco Bitstream Specification 2.2, section "Core
/// types".
#[derive(Drop)]
pub struct BitWriter {
    bytes: Vec<u8>,
    buffer: u64,
    count: u32,
}

impl Model for BitWriter {
    ghost use Rattle.std.specs.Prelude.{ℕ, List, ◌+◌, ◌*◌, ◌^◌, ◌<◌, ◌≤◌, ◌++◌, vec_len, vec_capacity};
    ghost use Rattle.drc_bits.specs.Bits.{bits_of, low_bits};

    ghost Value = { List ℕ };

    ghost view = { λ w. bits_of w.bytes.items ++ low_bits w.count w.buffer };

    ghost invariant = { λ w. (w.count < 32) × (w.buffer < 2 ^ w.count)
        × (0 < w.count → vec_len w.bytes + 4 ≤ vec_capacity w.bytes) };
}

/// The buffer with a number of `n` bits more above its `count` bits.
fn with_number(buffer: u64, count: u32, n: u32, value: u32) -> u64
    requires count { count < 32 }
    requires n { n ≤ 32 }
    requires buffer { buffer < 2 ^ count }
    requires value { value < 2 ^ n }
    ensures sum { result ≡ buffer + value * 2 ^ count }
    ensures fits { result < 2 ^ (count + n) }
{
    buffer | u64::from(value) << count
}

/// The low four bytes of a number, the lowest first.
fn word_bytes(number: u64) -> [u8; 4]
    ensures { result ≡ low_bytes 4 number }
{
    let second = number / 256;
    let third = second / 256;
    let fourth = third / 256;
    [
        (number % 256) as u8,
        (second % 256) as u8,
        (third % 256) as u8,
        (fourth % 256) as u8,
    ]
}

/// Makes room for the last four bytes, which is there where bits are in the buffer.
fn make_room(bytes: &mut Vec<u8>, count: u32) -> Result<(), Memory>
    requires { 0 < count → vec_len bytes.old + 4 ≤ vec_capacity bytes.old }
    ensures items { bytes.new.items ≡ bytes.old.items }
    ensures len { vec_len bytes.new ≡ vec_len bytes.old }
    ensures room { OnOk result (vec_len bytes.new + 4 ≤ vec_capacity bytes.new) }
    ensures capacity { vec_capacity bytes.old ≤ vec_capacity bytes.new }
{
    if count == 0 {
        bytes.reserve(4)?;
    }
    Ok(())
}

/// Appends the low four bytes of a number, and makes room for four more.
fn put_word(bytes: &mut Vec<u8>, number: u64) -> Result<(), Memory>
    ensures items { OnOk result (bytes.new.items ≡ bytes.old.items ++ low_bytes 4 number) }
    ensures room { OnOk result (vec_len bytes.new + 4 ≤ vec_capacity bytes.new) }
    ensures err { OnErr result (bytes.new.items ≡ bytes.old.items) }
    ensures len { OnErr result (vec_len bytes.new ≡ vec_len bytes.old) }
    ensures capacity { vec_capacity bytes.old ≤ vec_capacity bytes.new }
{
    bytes.reserve(8)?;
    bytes.extend_from_slice(&word_bytes(number))?;
    Ok(())
}

/// Appends the low `n` bytes of a number, the lowest first, into room that is there.
fn put_bytes(bytes: &mut Vec<u8>, n: u32, number: u64)
    requires { vec_len bytes.old + n ≤ vec_capacity bytes.old }
    ensures items { bytes.new.items ≡ bytes.old.items ++ low_bytes n number }
    ensures bytes { (i : ℕ) → slice_index bytes.new.items i < 256 }
    ensures len { vec_len bytes.new ≡ vec_len bytes.old + n }
    ensures capacity { vec_capacity bytes.new ≡ vec_capacity bytes.old }
{
    let mut rest = number;
    for _ in 0..n {
        bytes.push_reserved((rest & 255) as u8);
        rest >>= 8;
    }
}

impl BitWriter {
    /// A writer of no bit yet. It takes no memory.
    pub fn new(alloc: Global) -> BitWriter
        ensures { result ≡ [] }
    {
        BitWriter {
            bytes: Vec::new(alloc),
            buffer: 0,
            count: 0,
        }
    }

    /// Puts the low `n` bits of `value`, at most 32, the lowest first. If memory runs out, the bits stay
    /// as they were.
    pub fn put(&mut self, n: u32, value: u32) -> Result<(), Memory>
        requires n { n ≤ 32 }
        requires value { value < 2 ^ n }
        ensures ok { OnOk result (self.new ≡ self.old ++ low_bits n value) }
        ensures err { OnErr result (self.new ≡ self.old) }
    {
        let buffer = with_number(self.buffer, self.count, n, value);
        let count = self.count + n;
        if count < 32 {
            make_room(&mut self.bytes, self.count)?;
            self.buffer = buffer;
            self.count = count;
            return Ok(());
        }
        put_word(&mut self.bytes, buffer)?;
        self.buffer = buffer >> 32;
        self.count = count - 32;
        Ok(())
    }

    /// The bytes of the bits that were put; the last one is filled with bits 0. Wherever they stand and
    /// whatever follows, they are read as exactly these bits. It takes no memory.
    pub fn finish(self) -> Vec<u8>
        ensures bytes { result.items ≡ packed self }
        ensures bits { bits_of result.items ≡ self ++ replicate (8 * bytes_for (length self) - length self) 0 }
        ensures again { Spells (bits_at (length self)) result.items self }
    {
        let mut bytes = self.bytes;
        put_bytes(&mut bytes, self.count.div_ceil(8), self.buffer);
        bytes
    }
}
