//! The integers that stand for values in a stream.

ghost use Rattle.std.specs.Prelude.{◌≡◌, ◌+◌, ◌*◌, ◌≤◌, ◌<◌, ◌%◌, Ok, Err, IfOk, drop, length, map, take};
ghost use Rattle.drc_base.specs.declared.faults.Fault.{Fault as AnyFault};
ghost use Rattle.drc_base.specs.declared.faults.Refusal.TheVariants as refusal;
ghost use Rattle.drc_bits.specs.Reading.{Reading, Reads, Gives, advanced, many_at};
ghost use Rattle.drc_bits.specs.Numbers.{number_at, little_endian};
ghost use Rattle.symbol_coding.specs.Block.{block_opening_at};
ghost use Rattle.symbol_coding.specs.Opened.{values_of};
ghost use Rattle.attr_section.specs.Opened.{integers_of};
ghost use Rattle.attr_section.specs.Values.{signed_of, plain_value_at, byte_width_at, plain_values_at, compressed_values_at, integers_at};
ghost use Rattle.attr_section.specs.Openings.{integers_opening_at};

use crate::coded_integers::CodedIntegers;
use drc_base::{Fault, Kind, MAX_VALUES, Memory, Refusal};
use drc_bits::Cursor;
use std::alloc::{AllocError, Global};
use symbol_coding::{Symbols, open_symbols};

/// The integer of a zigzag symbol.
#[inline(always)]
pub fn signed_of(symbol: u32) -> i32
    ensures { result ≡ signed_of symbol }
{
    let half = (symbol / 2) as i32;
    if symbol % 2 == 0 { half } else { -1 - half }
}

/// The next number of three bytes, little-endian.
fn get_u24(c: &mut Cursor<'_>) -> Result<u32, Fault>
    ensures { Reads (λ n. n) (number_at 3 c.old) c.new result }
{
    let piece = c.slice(3)?;
    Ok(u32::from_le_bytes([piece[0], piece[1], piece[2], 0]))
}

/// The next number of one to four bytes, little-endian.
fn read_number(c: &mut Cursor<'_>, width: u8) -> Result<u32, Fault>
    requires some { 1 ≤ width }
    requires few { width ≤ 4 }
    ensures { Reads (λ n. n) (number_at width c.old) c.new result }
{
    match width {
        1 => Ok(c.get_u8()? as u32),
        2 => Ok(c.get_u16()? as u32),
        3 => get_u24(c),
        _ => c.get_u32(),
    }
}

/// The integer of the next zigzag symbol of so many bytes.
#[tactic(auto, unfolding(crate::specs::Values::plain_value_at))]
fn read_plain_value(c: &mut Cursor<'_>, width: u8) -> Result<i32, Fault>
    requires some { 1 ≤ width }
    requires few { width ≤ 4 }
    ensures { Reads (λ x. x) (plain_value_at width c.old) c.new result }
{
    let symbol = read_number(c, width)?;
    Ok(signed_of(symbol))
}

/// How many bytes a plain value has.
#[tactic(auto, unfolding(crate::specs::Values::byte_width_at))]
fn read_byte_width(c: &mut Cursor<'_>) -> Result<u8, Fault>
    ensures item { Reads (λ n. n) (byte_width_at c.old) c.new result }
    ensures some { IfOk result (λ n. 1 ≤ n) }
    ensures few { IfOk result (λ n. n ≤ 4) }
{
    let at = c.place();
    let width = c.get_u8()?;
    if width < 1 || width > 4 {
        return Err(Fault::new(Kind::ByteWidth, at));
    }
    Ok(width)
}

/// The number whose bytes these are, one to four, little-endian.
#[inline(always)]
fn number_of(bytes: &[u8]) -> u32
    requires some { 1 ≤ length bytes.now }
    requires few { length bytes.now ≤ 4 }
    ensures { result ≡ little_endian bytes.now }
{
    match bytes {
        [a] => *a as u32,
        [a, b] => u32::from_le_bytes([*a, *b, 0, 0]),
        [a, b, d] => u32::from_le_bytes([*a, *b, *d, 0]),
        [a, b, d, e, ..] => u32::from_le_bytes([*a, *b, *d, *e]),
        [] => 0,
    }
}

/// The `n` bytes at a place.
#[inline(always)]
fn piece(bytes: &[u8], at: usize, n: u8) -> &[u8]
    requires { at + n ≤ length bytes.now }
    ensures piece { result.now ≡ take n (drop at bytes.now) }
    ensures len { length result.now ≡ n }
{
    &bytes[at..at + n as usize]
}

/// The number of so many bytes at a place.
#[inline(always)]
fn number_in(bytes: &[u8], at: usize, width: u8) -> u32
    requires some { 1 ≤ width }
    requires few { width ≤ 4 }
    requires there { at + width ≤ length bytes.now }
    ensures { (c : Reading) → c.rest ≡ bytes.now → number_at width (advanced at c) ≡ Ok (result, advanced (at + width) c) }
{
    number_of(piece(bytes, at, width))
}

/// `n` integers of so many bytes, all of which are there.
fn values_in(alloc: Global, bytes: &[u8], width: u8, n: u32) -> Result<Vec<i32>, Memory>
    requires some { 1 ≤ width }
    requires few { width ≤ 4 }
    requires there { n * width ≤ length bytes.now }
    ensures values { IfOk result (λ v. (c : Reading) → c.rest ≡ bytes.now → many_at (plain_value_at width) n c ≡ Ok (v.items, advanced (n * width) c)) }
    ensures len { IfOk result (λ v. length v.items ≡ n) }
{
    let mut values = Vec::with_capacity(alloc, n as usize)?;
    for k in 0..n {
        let at = k as usize * width as usize;
        let symbol = number_in(bytes, at, width);
        values.push_reserved(signed_of(symbol));
    }
    Ok(values)
}

/// `n` integers of so many bytes: from a slice where all of their bytes are there.
fn read_plain_of(alloc: Global, c: &mut Cursor<'_>, width: u8, n: u32) -> Result<Vec<i32>, Refusal>
    requires some { 1 ≤ width }
    requires few { width ≤ 4 }
    ensures item { Gives (λ v. v.items) (many_at (plain_value_at width) n c.old) c.new result }
    ensures len { IfOk result (λ v. length v.items ≡ n) }
{
    let bytes = c.rest();
    let size = n as usize * width as usize;
    if size <= bytes.len() {
        let values = values_in(alloc, bytes, width, n)?;
        c.skip(size);
        return Ok(values);
    }
    read_each(alloc, c, width, n)
}

/// `n` integers of so many bytes, one after another.
fn read_each(alloc: Global, c: &mut Cursor<'_>, width: u8, n: u32) -> Result<Vec<i32>, Refusal>
    requires some { 1 ≤ width }
    requires few { width ≤ 4 }
    ensures item { Gives (λ v. v.items) (many_at (plain_value_at width) n c.old) c.new result }
    ensures len { IfOk result (λ v. length v.items ≡ n) }
{
    let mut values = Vec::new(alloc);
    for _number in 0..n {
        let value = read_plain_value(c, width)?;
        values.push(value)?;
    }
    Ok(values)
}

/// `n` integers as they are.
#[tactic(auto, unfolding(crate::specs::Values::plain_values_at))]
fn read_plain_values(alloc: Global, c: &mut Cursor<'_>, n: u32) -> Result<Vec<i32>, Refusal>
    ensures item { Gives (λ v. v.items) (plain_values_at n c.old) c.new result }
    ensures early { (f : AnyFault) → byte_width_at c.old ≡ Err f → result ≡ Err (refusal.Fault f) }
    ensures len { IfOk result (λ v. length v.items ≡ n) }
{
    let width = read_byte_width(c)?;
    read_plain_of(alloc, c, width, n)
}

/// The integers of zigzag symbols.
fn signed_values(alloc: Global, symbols: &[u32]) -> Result<Vec<i32>, AllocError>
    ensures { IfOk result (λ v. v.items ≡ map signed_of symbols.now) }
{
    symbols.iter().map(|s| signed_of(*s)).collect(alloc)
}

/// The integers of an attribute that were opened.
#[derive(Drop)]
pub enum Integers<'a> {
    /// Those of coded symbols, which are taken one after another.
    Coded(CodedIntegers<'a>),
    /// Those of zigzag symbols that were read already.
    Symbols(Vec<u32>),
    /// Those that were read as they are.
    Plain(Vec<i32>),
}

impl Integers<'_> {
    /// All integers in a list.
    pub fn into_list(self, alloc: Global) -> Result<Vec<i32>, Memory>
        ensures { IfOk result (λ v. v.items ≡ integers_of self.entry) }
    {
        match self {
            Integers::Coded(integers) => integers.into_list(alloc),
            Integers::Symbols(symbols) => Ok(signed_values(alloc, &symbols)?),
            Integers::Plain(integers) => Ok(integers),
        }
    }
}

/// The integers of the symbols of a block.
fn integers_of_symbols<'a>(symbols: Symbols<'a>) -> Integers<'a>
    ensures { integers_of result ≡ map signed_of (values_of symbols.entry) }
{
    match symbols {
        Symbols::Coded(symbols) => Integers::Coded(CodedIntegers::new(symbols)),
        Symbols::Listed(symbols) => Integers::Symbols(symbols),
    }
}

/// Opens `n` integers of entries of `comps` components, in a symbol block.
#[tactic(auto, unfolding(crate::specs::Values::compressed_values_at))]
fn open_compressed_values<'a>(
    alloc: Global,
    c: &mut Cursor<'a>,
    comps: u32,
    n: u32,
) -> Result<Integers<'a>, Refusal>
    requires some { 0 < comps }
    requires whole { n % comps ≡ 0 }
    requires few { n ≤ MAX_VALUES }
    ensures item { Gives integers_of (compressed_values_at comps n c.old) c.new result }
    ensures early { (f : AnyFault) → block_opening_at n c.old ≡ Err f → result ≡ Err (refusal.Fault f) }
    ensures len { IfOk result (λ i. length (integers_of i) ≡ n) }
{
    let symbols = open_symbols(alloc, c, n, comps)?;
    Ok(integers_of_symbols(symbols))
}

/// Opens `n` integers of entries of `comps` components: as they are, or compressed. The cursor stands
/// behind them then, also where they are still to come.
#[tactic(auto, unfolding(crate::specs::Values::integers_at, crate::specs::Openings::integers_opening_at))]
pub fn open_integers<'a>(
    alloc: Global,
    c: &mut Cursor<'a>,
    comps: u32,
    n: u32,
) -> Result<Integers<'a>, Refusal>
    requires some { 0 < comps }
    requires whole { n % comps ≡ 0 }
    requires few { n ≤ MAX_VALUES }
    ensures item { Gives integers_of (integers_at comps n c.old) c.new result }
    ensures early { (f : AnyFault) → integers_opening_at n c.old ≡ Err f → result ≡ Err (refusal.Fault f) }
    ensures len { IfOk result (λ i. length (integers_of i) ≡ n) }
{
    let compressed = c.get_u8()?;
    if compressed == 0 {
        let values = read_plain_values(alloc, c, n)?;
        Ok(Integers::Plain(values))
    } else {
        open_compressed_values(alloc, c, comps, n)
    }
}

/// Reads `n` integers of entries of `comps` components, all of them.
pub fn read_integers(
    alloc: Global,
    c: &mut Cursor<'_>,
    comps: u32,
    n: u32,
) -> Result<Vec<i32>, Refusal>
    requires some { 0 < comps }
    requires whole { n % comps ≡ 0 }
    requires few { n ≤ MAX_VALUES }
    ensures item { Gives (λ v. v.items) (integers_at comps n c.old) c.new result }
    ensures early { (f : AnyFault) → integers_opening_at n c.old ≡ Err f → result ≡ Err (refusal.Fault f) }
    ensures len { IfOk result (λ v. length v.items ≡ n) }
{
    let integers = open_integers(alloc, c, comps, n)?;
    let values = integers.into_list(alloc)?;
    Ok(values)
}
