//! Reading a symbol block.

ghost use Rattle.std.specs.Prelude.{◌≡◌, ℕ, ◌+◌, ◌*◌, ◌/◌, ◌%◌, ◌^◌, ◌<◌, ◌≤◌, List, ◌++◌, length, replicate, sum, Err, IfOk, OnErr, vec_len, vec_capacity};
ghost use Rattle.drc_base.specs.Refusals.{Answers};
ghost use Rattle.drc_base.specs.declared.faults.Fault.{Fault as TheFault};
ghost use Rattle.drc_base.specs.declared.kinds.Kind.TheVariants as kind;
ghost use Rattle.drc_bits.specs.Bits.{bits_left, bits_of, bytes_for};
ghost use Rattle.drc_bits.specs.Reading.{Gives};
ghost use Rattle.symbol_tables.specs.Tables.{count_at};
ghost use Rattle.symbol_coding.specs.Block.{block_at, block_opening_at, raw_at, raw_opening_at, tagged_at, values_in_groups, widths, with_values};
ghost use Rattle.symbol_coding.specs.Opened.{values_of};
ghost use Rattle.symbol_coding.specs.Symbols.{next_symbols};

use crate::coded::{precision, pull, read_coded};
use crate::symbols::CodedSymbols;
use drc_base::{Fault, Kind, MAX_VALUES, Memory, Refusal};
use drc_bits::{BitReader, Cursor};
use rans_core::Decoder;
use std::alloc::Global;
use symbol_tables::Table;

/// The values of a block that was opened.
#[derive(Drop)]
pub enum Symbols<'a> {
    /// Those of a block whose values are symbols, which are taken one after another.
    Coded(CodedSymbols<'a>),
    /// Those of a block of groups, whose faults come while it is read; and no values.
    Listed(Vec<u32>),
}

impl Symbols<'_> {
    /// All values in a list.
    pub fn into_list(self, alloc: Global) -> Result<Vec<u32>, Memory>
        ensures { IfOk result (λ v. v.items ≡ values_of self.entry) }
    {
        match self {
            Symbols::Coded(symbols) => symbols.into_list(alloc),
            Symbols::Listed(values) => Ok(values),
        }
    }
}

/// Opens a block of `n` values that are symbols, behind its scheme.
#[tactic(auto, unfolding(crate::specs::Block::raw_at, crate::specs::Block::raw_opening_at))]
fn open_raw<'a>(alloc: Global, c: &mut Cursor<'a>, n: u32) -> Result<CodedSymbols<'a>, Refusal>
    ensures block { Gives (λ s. s) (raw_at n c.old) c.new result }
    ensures len { IfOk result (λ s. length s ≡ n) }
    ensures early { (f : TheFault) → raw_opening_at c.old ≡ Err f → result ≡ Err (Refusal.Fault f) }
{
    let bad_length = c.fault(Kind::Length);
    let length = u32::from(c.get_u8()?);
    if length < 1 || length > 18 {
        return Err(Refusal::Fault(bad_length));
    }
    let bits = precision(length);
    let table = Table::read(alloc, c, bits)?;
    let (decoder, _) = read_coded(c, bits)?;
    Ok(CodedSymbols::new(decoder, table, n))
}

/// Reads the values of a group of this bit length. Their bits and the room for them are there.
fn read_group(reader: &mut BitReader<'_>, values: &mut Vec<u32>, width: u32, comps: u32)
    requires width { width ≤ 32 }
    requires room { vec_len values.old + comps ≤ vec_capacity values.old }
    requires there { comps * width ≤ length (bits_left reader.old) }
    ensures values { (long short : ℕ) (ws : List ℕ)
        → with_values values.old.items (values_in_groups long short (replicate comps width ++ ws) (bits_left reader.old))
        ≡ with_values values.new.items (values_in_groups long short ws (bits_left reader.new)) }
    ensures bytes { reader.new.bytes ≡ reader.old.bytes }
    ensures taken { reader.new.taken ≡ reader.old.taken + comps * width }
    ensures len { vec_len values.new ≡ vec_len values.old + comps }
{
    for _k in 0..comps {
        let value = reader.bits(width).unwrap();
        values.push_reserved(value);
    }
}

/// How many values room is made for before they are read: all that are declared, or as many as there are
/// bits where these are fewer. Values of no bits make room as they are read.
fn room_for(values: u32, bytes: usize) -> usize
    ensures declared { result ≤ values }
    ensures held { result ≤ 8 * bytes }
{
    bytes.saturating_mul(8).min(values as usize)
}

/// Reads the values of `groups` groups from the bits of `bytes`: each group's bit length is the next
/// symbol. Gives the values, and the number of bytes that were begun. `Length`, the first fault, where a
/// length is above 32; `Short`, the second, where the bits run out. Room is made for a group once its
/// bits are there.
fn read_groups(
    alloc: Global,
    decoder: Decoder<'_>,
    table: &Table,
    bytes: &[u8],
    groups: u32,
    comps: u32,
    long: Fault,
    short: Fault,
) -> Result<(Vec<u32>, usize), Refusal>
    requires whole { sum table.now ≡ 2 ^ decoder.bits }
    requires comps { 0 < comps }
    requires few { groups * comps ≤ MAX_VALUES }
    requires long { long.kind ≡ kind.Length }
    requires short { short.kind ≡ kind.Short }
    ensures values { Answers (λ r. r.0.items)
        (values_in_groups long.at short.at (widths comps (next_symbols groups decoder.entry.bits table.now decoder.entry.state)) (bits_of bytes.now)) result }
    ensures used { IfOk result (λ r. r.1 ≡ bytes_for (sum (widths comps (next_symbols groups decoder.entry.bits table.now decoder.entry.state)))) }
    ensures within { IfOk result (λ r. r.1 ≤ length bytes.now) }
    ensures len { IfOk result (λ r. length r.0.items ≡ groups * comps) }
{
    let mut decoder = decoder;
    let mut reader = BitReader::new(bytes);
    let mut values = Vec::with_capacity(alloc, room_for(groups * comps, bytes.len()))?;
    for g in 0..groups {
        let width = pull(&mut decoder, table);
        if width > 32 {
            return Err(Refusal::Fault(long));
        }
        if !reader.has(u64::from(comps) * u64::from(width)) {
            return Err(Refusal::Fault(short));
        }
        values.reserve(comps as usize)?;
        read_group(&mut reader, &mut values, width, comps);
    }
    Ok((values, reader.used()))
}

/// Reads a block of groups, behind its scheme.
#[tactic(auto, unfolding(crate::specs::Block::tagged_at))]
fn read_tagged(
    alloc: Global,
    c: &mut Cursor<'_>,
    groups: u32,
    comps: u32,
) -> Result<Vec<u32>, Refusal>
    requires comps { 0 < comps }
    requires few { groups * comps ≤ MAX_VALUES }
    ensures block { Gives (λ v. v.items) (tagged_at groups comps c.old) c.new result }
    ensures len { IfOk result (λ v. length v.items ≡ groups * comps) }
    ensures early { (f : TheFault) → count_at c.old ≡ Err f → result ≡ Err (Refusal.Fault f) }
{
    let bits = precision(5);
    let table = Table::read(alloc, c, bits)?;
    let (decoder, place) = read_coded(c, bits)?;
    let long = Fault::new(Kind::Length, place);
    let short = c.fault(Kind::Short);
    let bits = c.rest();
    let (values, used) = read_groups(alloc, decoder, &table, bits, groups, comps, long, short)?;
    c.skip(used);
    Ok(values)
}

/// Opens a block that has values, in groups of `comps` components.
#[tactic(auto, unfolding(crate::specs::Block::block_at, crate::specs::Block::block_opening_at))]
fn open_block<'a>(
    alloc: Global,
    c: &mut Cursor<'a>,
    n: u32,
    comps: u32,
) -> Result<Symbols<'a>, Refusal>
    requires some { 0 < n }
    requires comps { 0 < comps }
    requires divides { n % comps ≡ 0 }
    requires few { n ≤ MAX_VALUES }
    ensures block { Gives values_of (block_at n comps c.old) c.new result }
    ensures len { IfOk result (λ s. length (values_of s) ≡ n) }
    ensures early { (f : TheFault) → block_opening_at n c.old ≡ Err f → result ≡ Err (Refusal.Fault f) }
{
    let no_scheme = c.fault(Kind::Scheme);
    let scheme = c.get_u8()?;
    if scheme == 0 {
        let values = read_tagged(alloc, c, n / comps, comps)?;
        return Ok(Symbols::Listed(values));
    }
    if scheme == 1 {
        let symbols = open_raw(alloc, c, n)?;
        return Ok(Symbols::Coded(symbols));
    }
    Err(Refusal::Fault(no_scheme))
}

/// Opens a block of `n` values in groups of `comps` components; `n` is a multiple of `comps`. The cursor
/// stands behind the block then, also where its values are still to come. `Scheme` where the scheme is
/// none; for symbols `Length` where their bit length isn't 1 to 18; the faults of the table and of the
/// coded bytes; for groups `Length` at the first coded byte where a group's bit length is above 32, and
/// `Short` where the bits of the values begin if they run out. The faults up to the table's number of
/// symbols come before out of memory. After a refusal the cursor is where it was.
#[tactic(auto, unfolding(crate::specs::Block::block_at, crate::specs::Block::block_opening_at))]
pub fn open_symbols<'a>(
    alloc: Global,
    c: &mut Cursor<'a>,
    n: u32,
    comps: u32,
) -> Result<Symbols<'a>, Refusal>
    requires comps { 0 < comps }
    requires divides { n % comps ≡ 0 }
    requires few { n ≤ MAX_VALUES }
    ensures block { Gives values_of (block_at n comps c.old) c.new result }
    ensures len { IfOk result (λ s. length (values_of s) ≡ n) }
    ensures early { (f : TheFault) → block_opening_at n c.old ≡ Err f → result ≡ Err (Refusal.Fault f) }
    ensures unchanged { OnErr result (c.new ≡ c.old) }
{
    if n == 0 {
        return Ok(Symbols::Listed(Vec::new(alloc)));
    }
    let mut ahead = c.copy();
    let symbols = open_block(alloc, &mut ahead, n, comps)?;
    *c = ahead;
    Ok(symbols)
}

/// Reads a block of `n` values in groups of `comps` components, all of them; `n` is a multiple of `comps`.
/// The faults are those of opening it. After a refusal the cursor is where it was.
pub fn read_symbols(
    alloc: Global,
    c: &mut Cursor<'_>,
    n: u32,
    comps: u32,
) -> Result<Vec<u32>, Refusal>
    requires comps { 0 < comps }
    requires divides { n % comps ≡ 0 }
    requires few { n ≤ MAX_VALUES }
    ensures block { Gives (λ v. v.items) (block_at n comps c.old) c.new result }
    ensures len { IfOk result (λ v. length v.items ≡ n) }
    ensures early { (f : TheFault) → block_opening_at n c.old ≡ Err f → result ≡ Err (Refusal.Fault f) }
    ensures unchanged { OnErr result (c.new ≡ c.old) }
{
    let mut ahead = c.copy();
    let symbols = open_symbols(alloc, &mut ahead, n, comps)?;
    let values = symbols.into_list(alloc)?;
    *c = ahead;
    Ok(values)
}
