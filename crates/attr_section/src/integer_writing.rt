//! Writing the integers that stand for values.

ghost use Rattle.std.specs.Prelude.{◌≡◌, ◌≤◌, ◌<◌, ◌+◌, ◌%◌, ◌++◌, ◌^◌, IfOk, OnOk, All, length, map, flat_map, vec_len, vec_capacity, true, false, Bool};
ghost use Rattle.drc_bits.specs.Bits.{low_bytes};
ghost use Rattle.drc_bits.specs.Spells.{Spells};
ghost use Rattle.symbol_coding.specs.Block.{block_at, block_bytes};
ghost use Rattle.attr_section.specs.Values.{signed_of, integers_at};
ghost use Rattle.attr_section.specs.WrittenParts.{greatest_symbol, byte_width, plain_bytes, symbols_bytes};

use drc_base::{MAX_VALUES, Memory};
use std::alloc::Global;
use std::mem;
use symbol_coding::write_symbols;

/// The greatest symbol.
fn greatest_symbol(symbols: &[u32]) -> u32
    ensures { result ≡ greatest_symbol symbols.now }
{
    let mut greatest: u32 = 0;
    for symbol in symbols {
        greatest = greatest.max(*symbol);
    }
    greatest
}

/// The fewest bytes that hold a symbol, at least one.
fn byte_width(symbol: u32) -> u8
    ensures width { result ≡ byte_width symbol }
    ensures some { 1 ≤ result }
    ensures few { result ≤ 4 }
{
    if symbol < 0x100 {
        1
    } else if symbol < 0x1_0000 {
        2
    } else if symbol < 0x100_0000 {
        3
    } else {
        4
    }
}

/// Appends the low bytes of a symbol, where there is room.
#[inline(always)]
fn put_symbol(out: &mut Vec<u8>, symbol: u32, width: u8)
    requires some { 1 ≤ width }
    requires few { width ≤ 4 }
    requires room { vec_len out.old + width ≤ vec_capacity out.old }
    ensures bytes { out.new.items ≡ out.old.items ++ low_bytes width symbol }
    ensures len { vec_len out.new ≡ vec_len out.old + width }
    ensures capacity { vec_capacity out.new ≡ vec_capacity out.old }
{
    out.push_reserved((symbol % 256) as u8);
    if width > 1 {
        out.push_reserved((symbol / 256 % 256) as u8);
    }
    if width > 2 {
        out.push_reserved((symbol / 256 / 256 % 256) as u8);
    }
    if width > 3 {
        out.push_reserved((symbol / 256 / 256 / 256 % 256) as u8);
    }
}

/// The low bytes of symbols, behind these bytes.
fn put_all(front: Vec<u8>, symbols: &[u32], width: u8) -> Result<Vec<u8>, Memory>
    requires some { 1 ≤ width }
    requires few { width ≤ 4 }
    ensures bytes { IfOk result (λ v. v.items ≡ front.items ++ flat_map (low_bytes width) symbols.now) }
    ensures fit { OnOk result (All (λ s. s < 2 ^ 32) symbols.now) }
{
    let mut out = front;
    out.reserve(width as usize * symbols.len())?;
    for k in 0..symbols.len() {
        put_symbol(&mut out, symbols[k], width);
    }
    Ok(out)
}

/// Appends symbols as they are.
#[tactic(auto, unfolding(crate::specs::WrittenParts::plain_bytes))]
fn put_plain(alloc: Global, out: &mut Vec<u8>, symbols: &[u32]) -> Result<(), Memory>
    ensures bytes { OnOk result (out.new.items ≡ out.old.items ++ plain_bytes symbols.now) }
    ensures fit { OnOk result (All (λ s. s < 2 ^ 32) symbols.now) }
{
    let width = byte_width(greatest_symbol(symbols));
    out.push(width)?;
    let front = mem::replace(out, Vec::new(alloc));
    *out = put_all(front, symbols, width)?;
    Ok(())
}

/// Appends symbols as they are, behind the byte that says so.
fn put_plain_symbols(
    alloc: Global,
    out: &mut Vec<u8>,
    symbols: Vec<u32>,
    comps: u32,
) -> Result<(), Memory>
    ensures bytes { OnOk result (out.new.items ≡ out.old.items ++ symbols_bytes true comps symbols.items) }
    ensures again { OnOk result (Spells (integers_at comps (length symbols.items)) (symbols_bytes true comps symbols.items) (map signed_of symbols.items)) }
{
    out.push(0)?;
    put_plain(alloc, out, &symbols)?;
    Ok(())
}

/// The block of symbols, which are freed.
fn block_of(alloc: Global, symbols: Vec<u32>, comps: u32) -> Result<Vec<u8>, Memory>
    requires some { 0 < comps }
    requires whole { length symbols.items % comps ≡ 0 }
    requires few { length symbols.items ≤ MAX_VALUES }
    ensures block { IfOk result (λ v. v.items ≡ block_bytes symbols.items comps) }
    ensures again { OnOk result (Spells (block_at (length symbols.items) comps) (block_bytes symbols.items comps) symbols.items) }
{
    let block = write_symbols(alloc, &symbols, comps)?;
    Ok(block)
}

/// Appends symbols in a block, behind the byte that says so.
fn put_compressed_symbols(
    alloc: Global,
    out: &mut Vec<u8>,
    symbols: Vec<u32>,
    comps: u32,
) -> Result<(), Memory>
    requires some { 0 < comps }
    requires whole { length symbols.items % comps ≡ 0 }
    requires few { length symbols.items ≤ MAX_VALUES }
    ensures bytes { OnOk result (out.new.items ≡ out.old.items ++ symbols_bytes false comps symbols.items) }
    ensures again { OnOk result (Spells (integers_at comps (length symbols.items)) (symbols_bytes false comps symbols.items) (map signed_of symbols.items)) }
{
    let block = block_of(alloc, symbols, comps)?;
    out.push(1)?;
    out.extend_from_slice(&block)?;
    Ok(())
}

/// Appends symbols, as they are or compressed. They are freed as soon as their bytes are there.
pub fn put_symbols(
    alloc: Global,
    out: &mut Vec<u8>,
    symbols: Vec<u32>,
    comps: u32,
    plain: bool,
) -> Result<(), Memory>
    requires some { 0 < comps }
    requires whole { length symbols.items % comps ≡ 0 }
    requires few { length symbols.items ≤ MAX_VALUES }
    ensures bytes { OnOk result (out.new.items ≡ out.old.items ++ symbols_bytes plain comps symbols.items) }
    ensures again { OnOk result (Spells (integers_at comps (length symbols.items)) (symbols_bytes plain comps symbols.items) (map signed_of symbols.items)) }
{
    if plain {
        put_plain_symbols(alloc, out, symbols, comps)
    } else {
        put_compressed_symbols(alloc, out, symbols, comps)
    }
}
