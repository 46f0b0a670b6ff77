//! Writing symbols.

ghost use Rattle.std.specs.Prelude.{◌≡◌, ◌+◌, ◌*◌, ◌^◌, ◌<◌, ◌≤◌, ◌++◌, IfOk, length};
ghost use Rattle.drc_bits.specs.Bits.{low_bits, packed};
ghost use Rattle.eb_standard.specs.SymbolBits.{symbol_bits, reversed_bits};

use corner_table::Symbol;
use drc_base::Memory;
use drc_bits::BitWriter;
use std::alloc::Global;

/// How many symbols are put at once. They have at most 30 bits.
const GROUP: usize = 10;

/// The bits of a symbol as a number, the first one lowest, and how many there are.
fn code_of(symbol: Symbol) -> (u64, u32)
    ensures bits { low_bits result.1 result.0 ≡ symbol_bits symbol }
    ensures fits { result.0 < 2 ^ result.1 }
    ensures few { result.1 ≤ 3 }
{
    match symbol {
        Symbol::C => (0, 1),
        Symbol::S => (1, 3),
        Symbol::L => (3, 3),
        Symbol::R => (5, 3),
        Symbol::E => (7, 3),
    }
}

/// A number of `count` bits with the bits of a symbol above them, and how many bits those are together.
fn with_symbol(word: u64, count: u32, symbol: Symbol) -> (u64, u32)
    requires count { count ≤ 60 }
    requires word { word < 2 ^ count }
    ensures bits { low_bits result.1 result.0 ≡ low_bits count word ++ symbol_bits symbol }
    ensures fits { result.0 < 2 ^ result.1 }
    ensures few { result.1 ≤ count + 3 }
{
    let (code, more) = code_of(symbol);
    (word | code << count, count + more)
}

/// The bits of a few symbols as a number, the last symbol's lowest, and how many there are.
fn bits_of_group(group: &[Symbol]) -> (u32, u32)
    requires { length group.now ≤ GROUP }
    ensures bits { low_bits result.1 result.0 ≡ reversed_bits group.now }
    ensures fits { result.0 < 2 ^ result.1 }
    ensures few { result.1 ≤ 32 }
{
    let mut word = 0;
    let mut count = 0;
    for i in (0..group.len()).rev() {
        (word, count) = with_symbol(word, count, group[i]);
    }
    (word as u32, count)
}

/// The bytes of the symbols' bits, the last symbol first; the last byte is filled with bits 0 (Draco
/// Bitstream Specification 2.2, Edgebreaker standard traversal). Memory where there is no room for them.
pub fn pack(alloc: Global, symbols: &[Symbol]) -> Result<Vec<u8>, Memory>
    ensures { IfOk result (λ bytes. bytes.items ≡ packed (reversed_bits symbols.now)) }
{
    let mut bits = BitWriter::new(alloc);
    for group in symbols.rchunks(GROUP) {
        let (word, count) = bits_of_group(group);
        bits.put(count, word)?;
    }
    Ok(bits.finish())
}
