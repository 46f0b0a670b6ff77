//! A cursor over the bytes of a stream.

ghost use Rattle.std.specs.Prelude.{◌≡◌, ◌+◌, ◌/◌, ◌≤◌, length, take, IfOk};
ghost use Rattle.drc_bits.specs.Bits.{bits_at, bits_of, bytes_for};
ghost use Rattle.drc_bits.specs.Reading.{start_of, advanced, bytes_at, Takes};
ghost use Rattle.drc_bits.specs.Numbers.{number_at, signed_at};
ghost use Rattle.drc_bits.specs.Varint.{var32_at, var64_at};

use crate::varints::{var32_front, var64_front};
use drc_base::{Fault, Kind};
use std::marker::Model;

/// A place in the bytes of a stream, and the bytes that are left. Each call that reads gives the
/// item at the place and moves behind it; at a fault, whose `at` is the place, it stays.
#[derive(Drop)]
pub struct Cursor<'a> {
    bytes: &'a [u8],
    place: usize,
}

impl<'a> Model for Cursor<'a> {
    ghost use Rattle.std.specs.Prelude.{drop, ◌≤◌, length};
    ghost use Rattle.drc_bits.specs.Reading.{Reading};

    ghost Value = { Reading };

    ghost view = { λ s. record { place = s.place; rest = drop s.place s.bytes.now } };

    ghost invariant = { λ s. s.place ≤ length s.bytes.now };
}

impl<'a> Cursor<'a> {
    /// A cursor at the start of `bytes`.
    pub fn new(bytes: &'a [u8]) -> Cursor<'a>
        ensures { result ≡ start_of bytes.now }
    {
        Cursor { bytes, place: 0 }
    }

    /// A cursor at the same place of the same bytes.
    pub fn copy(&self) -> Cursor<'a>
        ensures { result ≡ self.now }
    {
        Cursor {
            bytes: self.bytes,
            place: self.place,
        }
    }

    /// How many bytes lie before the cursor.
    pub fn place(&self) -> u64
        ensures { result ≡ self.now.place }
    {
        self.place as u64
    }

    /// The bytes that are left.
    pub fn rest(&self) -> &'a [u8]
        ensures rest { result.now ≡ self.now.rest }
        ensures len { length result.now ≡ length self.now.rest }
    {
        &self.bytes[self.place..]
    }

    /// Moves behind the next `n` bytes.
    pub fn skip(&mut self, n: usize)
        requires { n ≤ length self.old.rest }
        ensures { self.new ≡ advanced n self.old }
    {
        self.place += n;
    }

    /// The next `n` bytes, or `Short`.
    pub fn slice(&mut self, n: u64) -> Result<&'a [u8], Fault>
        ensures { Takes (λ s. s.now) (bytes_at n self.old) self.old self.new result }
    {
        let rest = self.rest();
        if (rest.len() as u64) < n {
            return Err(self.fault(Kind::Short));
        }
        let n = n as usize;
        self.skip(n);
        Ok(&rest[..n])
    }

    /// The bytes that hold the next `n` bits, or `Short`. The bits are the first ones of these bytes, the
    /// lowest bit of each byte first; the cursor moves to the next byte boundary behind them.
    pub fn bits(&mut self, n: u32) -> Result<&'a [u8], Fault>
        ensures bits { Takes (λ s. take n (bits_of s.now)) (bits_at n self.old) self.old self.new result }
        ensures len { IfOk result (λ s. length s.now ≡ bytes_for n) }
    {
        self.slice((u64::from(n) + 7) / 8)
    }

    /// The next byte, or `Short`.
    pub fn get_u8(&mut self) -> Result<u8, Fault>
        ensures { Takes (λ n. n) (number_at 1 self.old) self.old self.new result }
    {
        let piece = self.slice(1)?;
        Ok(piece[0])
    }

    /// The next number of two bytes, little-endian, or `Short`.
    pub fn get_u16(&mut self) -> Result<u16, Fault>
        ensures { Takes (λ n. n) (number_at 2 self.old) self.old self.new result }
    {
        let piece = self.slice(2)?;
        Ok(u16::from_le_bytes([piece[0], piece[1]]))
    }

    /// The next number of four bytes, little-endian, or `Short`.
    pub fn get_u32(&mut self) -> Result<u32, Fault>
        ensures { Takes (λ n. n) (number_at 4 self.old) self.old self.new result }
    {
        let piece = self.slice(4)?;
        Ok(u32::from_le_bytes([piece[0], piece[1], piece[2], piece[3]]))
    }

    /// The next signed number of four bytes, little-endian, in two's complement, or `Short`.
    pub fn get_i32(&mut self) -> Result<i32, Fault>
        ensures { Takes (λ n. n) (signed_at self.old) self.old self.new result }
    {
        let piece = self.slice(4)?;
        Ok(i32::from_le_bytes([piece[0], piece[1], piece[2], piece[3]]))
    }

    /// The next varint of 32 bits. `Short` where the bytes end before it does, `Long` where its
    /// first five bytes all have the high bit or its value doesn't fit.
    pub fn var32(&mut self) -> Result<u32, Fault>
        ensures { Takes (λ n. n) (var32_at self.old) self.old self.new result }
    {
        match var32_front(self.rest()) {
            Ok((value, n)) => {
                self.skip(n);
                Ok(value)
            }
            Err(kind) => Err(self.fault(kind)),
        }
    }

    /// The next varint of 64 bits. `Short` where the bytes end before it does, `Long` where its
    /// first ten bytes all have the high bit or its value doesn't fit.
    pub fn var64(&mut self) -> Result<u64, Fault>
        ensures { Takes (λ n. n) (var64_at self.old) self.old self.new result }
    {
        match var64_front(self.rest()) {
            Ok((value, n)) => {
                self.skip(n);
                Ok(value)
            }
            Err(kind) => Err(self.fault(kind)),
        }
    }

    /// A fault of this kind at the cursor's place.
    pub fn fault(&self, kind: Kind) -> Fault
        ensures { result ≡ record { kind = kind; at = self.now.place } }
    {
        Fault::new(kind, self.place())
    }
}
