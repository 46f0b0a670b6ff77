//! Writing the values of octahedral attributes.

ghost use Rattle.std.specs.Prelude.{◌≡◌, ◌+◌, ◌*◌, ◌/◌, ◌%◌, ◌-◌, ◌^◌, ◌≤◌, ◌<◌, ◌↔◌, ℕ, ℤ, true, false, IsTrue, IsSome, All, IfOk, OnOk, Ok, Some, [], ◌++◌, length, map, unsigned_abs, pos};
ghost use Rattle.std.specs.Option.{option_map};
ghost use Rattle.std.specs.List.{list_all};
ghost use Rattle.drc_bits.specs.Spells.{Spells};
ghost use Rattle.attr_heads.specs.Bounds.{in_bounds};
ghost use Rattle.attr_heads.specs.Octahedra.{are_octahedral_bits, square_bounds};
ghost use Rattle.rans_binary.specs.Blocks.{block, IsBlockOf};
ghost use Rattle.corner_table.specs.Ordered.{entries_by};
ghost use Rattle.predict.specs.Surfaces.{surface, surface_of, IsOverTable, MayBeOver};
ghost use Rattle.octahedron.specs.Pairs.{pairs_of, AreValues, AreCoordinates, AreCanonical};
ghost use Rattle.octahedral_values.specs.Steps.{geometric_normal, normals_round, flips_of, restored_integers, corrected_integers};
ghost use Rattle.attr_section.specs.Positions.{places_on};
ghost use Rattle.attr_section.specs.TablePositions.{positions_in};
ghost use Rattle.attr_section.specs.Values.{signed_of};
ghost use Rattle.attr_section.specs.Squared.{square_facts, square_at, square_step, squared, square_corrected_at, centre_of};
ghost use Rattle.attr_section.specs.WrittenSquares.{are_canonical, square_prediction_on, settled_square, square_flips, square_corrections, square_bytes, flips_bytes, square_flipped_bytes, square_predicted_bytes, square_prediction_bytes, SquareSpelled};
ghost use Rattle.attr_section.specs.Written.{MayHavePoints};

use crate::flag_writing::put_bits;
use crate::integer_writing::put_symbols;
use crate::places::normals_on;
use crate::positions::Positions;
use crate::predicted_writing::put_integers;
use crate::quant_writing::put_u32;
use crate::square_predictions::SquarePrediction;
use crate::squared_reading::square_of;
use attr_heads::Coding;
use drc_base::{MAX_VALUES, Memory};
use octahedral_values::{correct_differences, correct_normals};
use octahedron::Square;
use predict::Ordered;
use std::alloc::{AllocError, Global};

/// The prediction in the place of one that needs a surface and positions, where these aren't there.
fn prediction_on(
    on: Option<&Ordered<'_>>,
    positions: Option<&Positions<'_>>,
    asked: SquarePrediction,
) -> SquarePrediction
    ensures { result ≡ square_prediction_on (surface_of (option_map (λ t. t.now) on.entry)) (option_map (λ p. positions_in p.now) positions.entry) asked }
{
    let there = on.is_some() && positions.is_some();
    match asked {
        SquarePrediction::Normals => {
            if there {
                SquarePrediction::Normals
            } else {
                SquarePrediction::Difference
            }
        }
        SquarePrediction::Difference => SquarePrediction::Difference,
        SquarePrediction::Off => SquarePrediction::Off,
    }
}

/// Whether all values in a square are in canonical spelling.
#[tactic(auto, unfolding(crate::specs::WrittenSquares::are_canonical))]
fn are_canonical(square: Square, values: &[i32]) -> bool
    requires { AreValues square.centre values.now }
    ensures { result ≡ are_canonical square.centre values.now }
{
    square.are_canonical(values)
}

/// The prediction that values are written by where this one is asked for.
#[tactic(auto, unfolding(crate::specs::WrittenSquares::settled_square))]
fn settled(
    on: Option<&Ordered<'_>>,
    positions: Option<&Positions<'_>>,
    bits: u8,
    asked: SquarePrediction,
    values: &[i32],
) -> SquarePrediction
    requires bits { IsTrue (are_octahedral_bits bits) }
    requires values { AreValues (centre_of bits) values.now }
    ensures settled { result ≡ settled_square (surface_of (option_map (λ t. t.now) on.entry)) (option_map (λ p. positions_in p.now) positions.entry) bits values.now asked }
{
    if are_canonical(square_of(bits), values) {
        prediction_on(on, positions, asked)
    } else {
        SquarePrediction::Off
    }
}

/// Values to corrections in place, by the normals of the faces round each entry of an ordered surface, and the flips of the entries.
fn correct_by_normals(
    alloc: Global,
    square: Square,
    on: &Ordered<'_>,
    positions: &Positions<'_>,
    values: &mut [i32],
) -> Result<Vec<bool>, Memory>
    requires over { IsOverTable on.now }
    requires entries { All (λ (e : ℕ). e < length on.now.order.now.corner_of_entry) (entries_by on.now.classes.now.of_corner on.now.order.now.entry_of_class) }
    requires each { length values.old ≡ length on.now.order.now.corner_of_entry * 2 }
    requires values { AreValues square.centre values.old }
    ensures flips { IfOk result (λ f. f.items ≡ flips_of square.centre (normals_round (surface on.now).entries (places_on (positions_in positions.now) (surface on.now))) (pairs_of values.old)) }
    ensures corrections { IfOk result (λ f. corrected_integers (geometric_normal square.centre (normals_round (surface on.now).entries (places_on (positions_in positions.now) (surface on.now)))) square.centre f.items values.old ≡ Ok values.new) }
    ensures within { OnOk result (AreCoordinates square.centre values.new) }
    ensures restores { IfOk result (λ f. AreCanonical square.centre values.old → restored_integers (geometric_normal square.centre (normals_round (surface on.now).entries (places_on (positions_in positions.now) (surface on.now)))) square.centre f.items values.new ≡ Ok values.old) }
    ensures each { length values.new ≡ length values.old }
{
    let sums = normals_on(alloc, positions, on)?;
    let mut flips = vec![in alloc; false; sums.len()]?;
    correct_normals(square, &sums, &mut flips, values);
    Ok(flips)
}

/// Values to corrections in place, by a prediction that corrects, and the flips that are written beside them.
#[tactic(auto, unfolding(crate::specs::Squared::square_step))]
fn correct_square(
    alloc: Global,
    square: Square,
    prediction: SquarePrediction,
    on: Option<&Ordered<'_>>,
    positions: Option<&Positions<'_>>,
    values: &mut [i32],
) -> Result<Vec<bool>, Memory>
    requires corrects { (square_facts prediction).corrects ≡ true }
    requires there { (square_facts prediction).takes_positions ≡ true → IsSome on × IsSome positions }
    requires over { MayBeOver (option_map (λ t. t.now) on) }
    requires even { length values.old % 2 ≡ 0 }
    requires points { (square_facts prediction).takes_positions ≡ true → MayHavePoints (surface_of (option_map (λ t. t.now) on)) (length values.old) }
    requires values { AreValues square.centre values.old }
    ensures flips { IfOk result (λ f. f.items ≡ square_flips prediction (surface_of (option_map (λ t. t.now) on.entry)) (option_map (λ p. positions_in p.now) positions.entry) square.centre values.old) }
    ensures corrections { IfOk result (λ f. corrected_integers (square_step prediction (surface_of (option_map (λ t. t.now) on.entry)) (option_map (λ p. positions_in p.now) positions.entry) square.centre) square.centre f.items values.old ≡ Ok values.new) }
    ensures within { OnOk result (AreCoordinates square.centre values.new) }
    ensures restores { IfOk result (λ f. AreCanonical square.centre values.old → restored_integers (square_step prediction (surface_of (option_map (λ t. t.now) on.entry)) (option_map (λ p. positions_in p.now) positions.entry) square.centre) square.centre f.items values.new ≡ Ok values.old) }
    ensures each { length values.new ≡ length values.old }
{
    match (prediction, on, positions) {
        (SquarePrediction::Difference, _, _) => {
            correct_differences(square, values);
            Ok(Vec::new(alloc))
        }
        (SquarePrediction::Normals, Some(on), Some(positions)) => {
            correct_by_normals(alloc, square, on, positions, values)
        }
        _ => unreachable!(),
    }
}

/// The symbols of corrections in a square, which are these themselves.
fn symbols_of(alloc: Global, corrections: &[i32]) -> Result<Vec<u32>, AllocError>
    ensures { IfOk result (λ s. s.items ≡ map unsigned_abs corrections.now) }
{
    corrections.iter().map(|x| x.unsigned_abs()).collect(alloc)
}

/// The corrections of values by a prediction that corrects, and the flips that are written beside them.
fn corrected_values(
    alloc: Global,
    square: Square,
    prediction: SquarePrediction,
    on: Option<&Ordered<'_>>,
    positions: Option<&Positions<'_>>,
    values: &[i32],
) -> Result<(Vec<i32>, Vec<bool>), Memory>
    requires corrects { (square_facts prediction).corrects ≡ true }
    requires there { (square_facts prediction).takes_positions ≡ true → IsSome on × IsSome positions }
    requires over { MayBeOver (option_map (λ t. t.now) on) }
    requires even { length values.now % 2 ≡ 0 }
    requires points { (square_facts prediction).takes_positions ≡ true → MayHavePoints (surface_of (option_map (λ t. t.now) on)) (length values.now) }
    requires values { AreValues square.centre values.now }
    ensures flips { IfOk result (λ r. r.1.items ≡ square_flips prediction (surface_of (option_map (λ t. t.now) on.entry)) (option_map (λ p. positions_in p.now) positions.entry) square.centre values.now) }
    ensures corrections { IfOk result (λ r. corrected_integers (square_step prediction (surface_of (option_map (λ t. t.now) on.entry)) (option_map (λ p. positions_in p.now) positions.entry) square.centre) square.centre r.1.items values.now ≡ Ok r.0.items) }
    ensures within { IfOk result (λ r. AreCoordinates square.centre r.0.items) }
    ensures restores { IfOk result (λ r. AreCanonical square.centre values.now → restored_integers (square_step prediction (surface_of (option_map (λ t. t.now) on.entry)) (option_map (λ p. positions_in p.now) positions.entry) square.centre) square.centre r.1.items r.0.items ≡ Ok values.now) }
    ensures each { IfOk result (λ r. length r.0.items ≡ length values.now) }
{
    let mut corrections = Vec::from_slice(alloc, values)?;
    let flips = correct_square(alloc, square, prediction, on, positions, &mut corrections)?;
    Ok((corrections, flips))
}

/// The symbols of the corrections of values by a prediction that corrects, and the flips that are written beside them.
#[tactic(auto, unfolding(crate::specs::WrittenSquares::square_corrections))]
fn corrected_symbols(
    alloc: Global,
    bits: u8,
    prediction: SquarePrediction,
    on: Option<&Ordered<'_>>,
    positions: Option<&Positions<'_>>,
    values: &[i32],
) -> Result<(Vec<u32>, Vec<bool>), Memory>
    requires bits { IsTrue (are_octahedral_bits bits) }
    requires corrects { (square_facts prediction).corrects ≡ true }
    requires there { (square_facts prediction).takes_positions ≡ true → IsSome on × IsSome positions }
    requires over { MayBeOver (option_map (λ t. t.now) on) }
    requires even { length values.now % 2 ≡ 0 }
    requires points { (square_facts prediction).takes_positions ≡ true → MayHavePoints (surface_of (option_map (λ t. t.now) on)) (length values.now) }
    requires values { AreValues (centre_of bits) values.now }
    requires canonical { AreCanonical (centre_of bits) values.now }
    ensures flips { IfOk result (λ s. s.1.items ≡ square_flips prediction (surface_of (option_map (λ t. t.now) on.entry)) (option_map (λ p. positions_in p.now) positions.entry) (centre_of bits) values.now) }
    ensures symbols { IfOk result (λ s. s.0.items ≡ map unsigned_abs (square_corrections prediction (surface_of (option_map (λ t. t.now) on.entry)) (option_map (λ p. positions_in p.now) positions.entry) (centre_of bits) s.1.items values.now)) }
    ensures again { IfOk result (λ s. squared prediction (surface_of (option_map (λ t. t.now) on.entry)) (option_map (λ p. positions_in p.now) positions.entry) bits s.1.items (map signed_of s.0.items) ≡ Ok values.now) }
    ensures each { IfOk result (λ s. length s.0.items ≡ length values.now) }
{
    let square = square_of(bits);
    let (corrections, flips) = corrected_values(alloc, square, prediction, on, positions, values)?;
    let symbols = symbols_of(alloc, &corrections)?;
    Ok((symbols, flips))
}

/// One less than this power of two.
#[tactic(auto, using(std::proofs::lemmas::Nat::one_shl, std::proofs::lemmas::Nat::pow_pos, std::proofs::lemmas::Nat::pow_below))]
fn below_power(k: u32) -> u32
    requires { k < 31 }
    ensures { result ≡ 2 ^ k - 1 }
{
    (1u32 << k) - 1
}

/// Appends a square of so many bits: the greatest number of as many binary digits, and the centre.
#[tactic(auto, unfolding(crate::specs::WrittenSquares::square_bytes))]
fn put_square(out: &mut Vec<u8>, bits: u8) -> Result<(), Memory>
    requires { IsTrue (are_octahedral_bits bits) }
    ensures bytes { OnOk result (out.new.items ≡ out.old.items ++ square_bytes bits) }
    ensures again { OnOk result (Spells square_at (square_bytes bits) bits) }
{
    put_u32(out, below_power(bits as u32))?;
    put_u32(out, below_power(bits as u32 - 1))?;
    Ok(())
}

/// Appends the flips of a prediction, where it has them.
fn put_flips(
    alloc: Global,
    out: &mut Vec<u8>,
    prediction: SquarePrediction,
    flips: &[bool],
) -> Result<(), Memory>
    requires { length flips.now < 2 ^ 31 }
    ensures bytes { OnOk result (out.new.items ≡ out.old.items ++ flips_bytes prediction flips.now) }
    ensures again { OnOk result ((square_facts prediction).takes_positions ≡ true → IsBlockOf flips.now (block flips.now)) }
{
    if prediction.facts().takes_positions {
        put_bits(alloc, out, flips)
    } else {
        Ok(())
    }
}

/// Appends values by a prediction that corrects, behind its byte.
#[tactic(auto, unfolding(crate::specs::WrittenSquares::square_corrected_bytes))]
fn put_square_corrected(
    alloc: Global,
    out: &mut Vec<u8>,
    bits: u8,
    prediction: SquarePrediction,
    on: Option<&Ordered<'_>>,
    positions: Option<&Positions<'_>>,
    values: &[i32],
    plain: bool,
) -> Result<(), Memory>
    requires bits { IsTrue (are_octahedral_bits bits) }
    requires corrects { (square_facts prediction).corrects ≡ true }
    requires there { (square_facts prediction).takes_positions ≡ true → IsSome on × IsSome positions }
    requires over { MayBeOver (option_map (λ t. t.now) on) }
    requires few { length values.now ≤ MAX_VALUES }
    requires even { length values.now % 2 ≡ 0 }
    requires points { (square_facts prediction).takes_positions ≡ true → MayHavePoints (surface_of (option_map (λ t. t.now) on)) (length values.now) }
    requires values { AreValues (centre_of bits) values.now }
    requires canonical { AreCanonical (centre_of bits) values.now }
    ensures bytes { OnOk result (out.new.items ≡ out.old.items ++ square_flipped_bytes plain prediction (surface_of (option_map (λ t. t.now) on.entry)) (option_map (λ p. positions_in p.now) positions.entry) bits (square_flips prediction (surface_of (option_map (λ t. t.now) on.entry)) (option_map (λ p. positions_in p.now) positions.entry) (centre_of bits) values.now) values.now) }
    ensures again { OnOk result ((at : ℕ) → Spells (square_corrected_at at prediction (surface_of (option_map (λ t. t.now) on.entry)) (option_map (λ p. positions_in p.now) positions.entry) (length values.now)) (square_flipped_bytes plain prediction (surface_of (option_map (λ t. t.now) on.entry)) (option_map (λ p. positions_in p.now) positions.entry) bits (square_flips prediction (surface_of (option_map (λ t. t.now) on.entry)) (option_map (λ p. positions_in p.now) positions.entry) (centre_of bits) values.now) values.now) values.now) }
{
    let (symbols, flips) = corrected_symbols(alloc, bits, prediction, on, positions, values)?;
    out.push(Coding::Octahedral.facts().transform)?;
    put_symbols(alloc, out, symbols, 2, plain)?;
    put_square(out, bits)?;
    put_flips(alloc, out, prediction, &flips)?;
    Ok(())
}

/// Appends values of this prediction, behind its byte.
#[tactic(auto, unfolding(crate::specs::WrittenSquares::square_predicted_bytes))]
fn put_square_predicted(
    alloc: Global,
    out: &mut Vec<u8>,
    bits: u8,
    prediction: SquarePrediction,
    on: Option<&Ordered<'_>>,
    positions: Option<&Positions<'_>>,
    values: &[i32],
    plain: bool,
) -> Result<(), Memory>
    requires bits { IsTrue (are_octahedral_bits bits) }
    requires there { (square_facts prediction).takes_positions ≡ true → IsSome on × IsSome positions }
    requires over { MayBeOver (option_map (λ t. t.now) on) }
    requires few { length values.now ≤ MAX_VALUES }
    requires even { length values.now % 2 ≡ 0 }
    requires points { (square_facts prediction).takes_positions ≡ true → MayHavePoints (surface_of (option_map (λ t. t.now) on)) (length values.now) }
    requires values { AreValues (centre_of bits) values.now }
    requires canonical { (square_facts prediction).corrects ≡ true → AreCanonical (centre_of bits) values.now }
    ensures bytes { OnOk result (out.new.items ≡ out.old.items ++ square_predicted_bytes plain prediction (surface_of (option_map (λ t. t.now) on.entry)) (option_map (λ p. positions_in p.now) positions.entry) bits values.now) }
    ensures again { OnOk result (SquareSpelled plain prediction (surface_of (option_map (λ t. t.now) on.entry)) (option_map (λ p. positions_in p.now) positions.entry) bits values.now) }
{
    if prediction.facts().corrects {
        put_square_corrected(alloc, out, bits, prediction, on, positions, values, plain)
    } else {
        put_integers(alloc, out, values, 2, plain)
    }
}

/// Appends the values of an octahedral attribute with a square of so many bits, for which this prediction is asked.
pub fn put_squared(
    alloc: Global,
    out: &mut Vec<u8>,
    on: Option<&Ordered<'_>>,
    positions: Option<&Positions<'_>>,
    bits: u8,
    asked: SquarePrediction,
    values: &[i32],
    plain: bool,
) -> Result<(), Memory>
    requires bits { IsTrue (are_octahedral_bits bits) }
    requires over { MayBeOver (option_map (λ t. t.now) on) }
    requires few { length values.now ≤ MAX_VALUES }
    requires even { length values.now % 2 ≡ 0 }
    requires points { (square_facts asked).takes_positions ≡ true → MayHavePoints (surface_of (option_map (λ t. t.now) on)) (length values.now) }
    requires within { list_all (in_bounds (square_bounds bits)) values.now ≡ true }
    ensures bytes { let w = surface_of (option_map (λ t. t.now) on.entry) in let ps = option_map (λ p. positions_in p.now) positions.entry in
        OnOk result (out.new.items ≡ out.old.items ++ square_prediction_bytes plain (Some (settled_square w ps bits values.now asked)) w ps bits values.now) }
    ensures again { let w = surface_of (option_map (λ t. t.now) on.entry) in let ps = option_map (λ p. positions_in p.now) positions.entry in
        OnOk result (SquareSpelled plain (settled_square w ps bits values.now asked) w ps bits values.now) }
{
    let prediction = settled(on, positions, bits, asked, values);
    out.push(prediction.facts().byte)?;
    put_square_predicted(alloc, out, bits, prediction, on, positions, values, plain)?;
    Ok(())
}
