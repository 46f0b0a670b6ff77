//! Indices that are coded together, each by its difference from the one before.

ghost use Rattle.std.specs.Prelude.{◌≡◌, ℕ, ◌+◌, ◌*◌, ◌%◌, ◌≤◌, ◌<◌, pos, ◌+ℤ◌, ◌-ℤ◌, List, [], ◌∷◌, ◌++◌, length, slice_index, map, IfOk, OnOk, All, Ok};
ghost use Rattle.drc_base.specs.Refusals.{Answers};
ghost use Rattle.drc_bits.specs.Reading.{Gives};
ghost use Rattle.drc_bits.specs.Spells.{Spells};
ghost use Rattle.symbol_coding.specs.Block.{block_bytes};
ghost use Rattle.seq_section.specs.Indices.{packed_at, IsFaceBelow};
ghost use Rattle.seq_section.specs.Packed.{difference_of, point_meant, points_after, faces_meant, difference_symbol, symbols_after, symbols_of};

use drc_base::{Fault, Kind, MAX_FACES, MAX_POINTS, Memory, Refusal};
use drc_bits::Cursor;
use std::alloc::Global;
use symbol_coding::{read_symbols, write_symbols};

/// Reads so many faces of packed indices below `points`.
#[tactic(auto, unfolding(crate::specs::Indices::packed_at))]
pub fn read_packed(
    alloc: Global,
    c: &mut Cursor<'_>,
    faces: u32,
    points: u32,
) -> Result<Vec<[u32; 3]>, Refusal>
    requires few_faces { faces ≤ MAX_FACES }
    requires few_points { points ≤ MAX_POINTS }
    ensures { Gives (λ v. v.items) (packed_at points faces c.old) c.new result }
{
    let outside = c.fault(Kind::IndexRange);
    let symbols = read_symbols(alloc, c, 3 * faces, 1)?;
    faces_of(alloc, symbols.as_slice(), points, outside)
}

/// The faces that symbols mean, three of them each.
fn faces_of(
    alloc: Global,
    symbols: &[u32],
    points: u32,
    outside: Fault,
) -> Result<Vec<[u32; 3]>, Refusal>
    requires few_points { points ≤ MAX_POINTS }
    requires threes { length symbols.now % 3 ≡ 0 }
    ensures { Answers (λ v. v.items) (faces_meant outside points symbols.now) result }
{
    let mut faces = Vec::new(alloc);
    let mut last = 0u32;
    for k in 0..symbols.len() / 3 {
        let first = symbols[3 * k];
        let second = symbols[3 * k + 1];
        let third = symbols[3 * k + 2];
        let face = face_after(last, first, second, third, points, outside)?;
        last = face[2];
        faces.push(face)?;
    }
    Ok(faces)
}

/// The face that three symbols mean after an index.
fn face_after(
    last: u32,
    first: u32,
    second: u32,
    third: u32,
    points: u32,
    outside: Fault,
) -> Result<[u32; 3], Fault>
    requires last { last ≤ MAX_POINTS }
    requires few_points { points ≤ MAX_POINTS }
    ensures { result ≡ points_after outside points (pos last) (first ∷ second ∷ third ∷ []) }
{
    let a = index_after(last, first, points, outside)?;
    let b = index_after(a, second, points, outside)?;
    let d = index_after(b, third, points, outside)?;
    Ok([a, b, d])
}

/// The index that a symbol means after another: the fault where it isn't below `points`.
fn index_after(last: u32, symbol: u32, points: u32, outside: Fault) -> Result<u32, Fault>
    requires last { last ≤ MAX_POINTS }
    requires few_points { points ≤ MAX_POINTS }
    ensures { result ≡ point_meant outside points (pos last +ℤ difference_of symbol) }
{
    let size = symbol / 2;
    if symbol % 2 == 1 {
        if size > last {
            return Err(outside);
        }
        return point_below(last - size, points, outside);
    }
    point_below(last + size, points, outside)
}

/// The index itself, where it is below `points`.
fn point_below(index: u32, points: u32, outside: Fault) -> Result<u32, Fault>
    ensures { result ≡ point_meant outside points (pos index) }
{
    if index >= points {
        return Err(outside);
    }
    Ok(index)
}

/// Appends the block of the faces' packed indices.
pub fn put_packed(
    alloc: Global,
    out: &mut Vec<u8>,
    faces: &[[u32; 3]],
    points: u32,
) -> Result<(), Memory>
    requires few_faces { length faces.now ≤ MAX_FACES }
    requires few_points { points ≤ MAX_POINTS }
    requires below { All (IsFaceBelow points) faces.now }
    ensures block { OnOk result (out.new.items ≡ out.old.items ++ block_bytes (symbols_of faces.now) 1) }
    ensures again { OnOk result (Spells (packed_at points (length faces.now)) (block_bytes (symbols_of faces.now) 1) faces.now) }
{
    let symbols = symbols_of(alloc, faces, points)?;
    let block = write_symbols(alloc, symbols.as_slice(), 1)?;
    out.extend_from_slice(block.as_slice())?;
    Ok(())
}

/// The symbols of the faces, three for each.
fn symbols_of(alloc: Global, faces: &[[u32; 3]], points: u32) -> Result<Vec<u32>, Memory>
    requires few_points { points ≤ MAX_POINTS }
    requires below { All (IsFaceBelow points) faces.now }
    ensures symbols { IfOk result (λ v. v.items ≡ symbols_of faces.now) }
    ensures len { IfOk result (λ v. length v.items ≡ 3 * length faces.now) }
{
    let mut symbols = Vec::new(alloc);
    let mut last = 0u32;
    for face in faces {
        put_symbols(&mut symbols, last, *face, points)?;
        last = face[2];
    }
    Ok(symbols)
}

/// Appends the symbols of a face after an index.
fn put_symbols(symbols: &mut Vec<u32>, last: u32, face: [u32; 3], points: u32) -> Result<(), Memory>
    requires last { last ≤ points }
    requires few_points { points ≤ MAX_POINTS }
    requires below { IsFaceBelow points face }
    ensures { OnOk result (symbols.new.items ≡ symbols.old.items ++ symbols_after (pos last) face) }
{
    let [first, second, third] = face;
    symbols.push(symbol_of(last, first))?;
    symbols.push(symbol_of(first, second))?;
    symbols.push(symbol_of(second, third))?;
    Ok(())
}

/// The symbol of an index after another.
fn symbol_of(last: u32, index: u32) -> u32
    requires last { last ≤ MAX_POINTS }
    requires index { index ≤ MAX_POINTS }
    ensures { result ≡ difference_symbol (pos index -ℤ pos last) }
{
    if index < last {
        return 2 * (last - index) + 1;
    }
    2 * (index - last)
}
