//! Reading the values of octahedral attributes.

ghost use Rattle.std.specs.Prelude.{◌≡◌, ◌+◌, ◌*◌, ◌/◌, ◌%◌, ◌-◌, ◌^◌, ◌≤◌, ◌<◌, ◌↔◌, ℕ, true, false, IsTrue, IsSome, All, IfOk, IfErr, Ok, [], Option, Some, Err, MatchResult, length, map, pos, nat_le};
ghost use Rattle.std.specs.Option.{option_map};
ghost use Rattle.std.specs.List.{list_all};
ghost use Rattle.drc_base.specs.Profile.{profile_numbered};
ghost use Rattle.drc_base.specs.declared.faults.Fault.{Fault as AnyFault};
ghost use Rattle.drc_base.specs.declared.faults.Refusal.TheVariants as refusal;
ghost use Rattle.drc_base.specs.declared.kinds.Kind.TheVariants as kind;
ghost use Rattle.drc_bits.specs.Reading.{Reads, Gives};
ghost use Rattle.drc_bits.specs.Digits.{digits};
ghost use Rattle.rans_binary.specs.Blocks.{first_bits};
ghost use Rattle.predict.specs.Symbols.{zigzag_of};
ghost use Rattle.predict.specs.Surfaces.{surface, surface_of, IsOrderedOf, MayBeOrderedOf};
ghost use Rattle.octahedron.specs.Pairs.{AreValues};
ghost use Rattle.octahedral_values.specs.Steps.{geometric_normal, normals_round, restored_integers};
ghost use Rattle.attr_section.specs.Positions.{places_on, usable};
ghost use Rattle.corner_table.specs.Ordered.{Ordered as AnyOrdered};
ghost use Rattle.attr_section.specs.Positions.{Positions as AnyPositions};
ghost use Rattle.attr_section.specs.Opened.{integers_of};
ghost use Rattle.attr_section.specs.declared.square_predictions.SquarePrediction.TheVariants as by;
ghost use Rattle.attr_section.specs.TablePositions.{read_in, positions_in};
ghost use Rattle.attr_section.specs.Orders.{HasEntries, MayHaveEntries};
ghost use Rattle.attr_section.specs.Squared.{square_facts, is_square_prediction, is_square, square_at, flips_at, is_correction, correction_of, square_transform_at, square_prediction_at, square_step, squared, square_corrected_at, square_predicted_at, greatest_coordinate, centre_of};
ghost use Rattle.attr_section.specs.Openings.{square_corrected_opening_at, square_predicted_opening_at};

use crate::flag_lists::bits_of;
use crate::integers::{Integers, open_integers, read_integers};
use crate::places::normals_on;
use crate::positions::{Positions, ReadPositions, usable};
use crate::square_predictions::SquarePrediction;
use attr_heads::{Coding, are_octahedral_bits};
use drc_base::{Fault, Kind, MAX_VALUES, Memory, Profile, Refusal};
use drc_bits::Cursor;
use octahedral_values::{restore_differences, restore_normals};
use octahedron::Square;
use predict::{Ordered, symbol_of};
use rans_binary::BitBlock;
use std::alloc::Global;

/// Whether values on a surface can have a prediction in a profile.
fn is_square_prediction(
    profile: Profile,
    on: Option<&Ordered<'_>>,
    prediction: SquarePrediction,
) -> bool
    ensures { result ≡ is_square_prediction (profile_numbered profile.number) (surface_of (option_map (λ t. t.now) on.entry)) prediction }
{
    let facts = prediction.facts();
    profile.has(facts.since) && (on.is_some() || !facts.takes_positions)
}

/// The prediction of octahedral values, one that they can have on this surface in this profile.
#[tactic(auto, unfolding(crate::specs::Squared::square_prediction_at))]
pub fn read_square_prediction(
    c: &mut Cursor<'_>,
    profile: Profile,
    on: Option<&Ordered<'_>>,
) -> Result<SquarePrediction, Fault>
    ensures item { Reads (λ q. q) (square_prediction_at (profile_numbered profile.number) (surface_of (option_map (λ t. t.now) on.entry)) c.old) c.new result }
    ensures surface { IfOk result (λ q. (square_facts q).takes_positions ≡ true → IsSome on.entry) }
{
    let fault = c.fault(Kind::Prediction);
    let byte = c.get_u8()?;
    let Some(prediction) = SquarePrediction::of_byte(byte) else {
        return Err(fault);
    };
    if !is_square_prediction(profile, on, prediction) {
        return Err(fault);
    }
    Ok(prediction)
}

/// The transform of corrections in a square, which there is one of.
#[tactic(auto, unfolding(crate::specs::Squared::square_transform_at))]
fn read_square_transform(c: &mut Cursor<'_>) -> Result<u8, Fault>
    ensures { Reads (λ b. b) (square_transform_at c.old) c.new result }
{
    let fault = c.fault(Kind::Transform);
    let byte = c.get_u8()?;
    if byte != Coding::Octahedral.facts().transform {
        return Err(fault);
    }
    Ok(byte)
}

/// The number of binary digits of a number.
fn digits_of(v: u32) -> u8
    requires { 0 < v }
    ensures { result ≡ digits v }
{
    v.ilog2() as u8 + 1
}

/// Whether a number is that of a square.
fn is_square(most: u32) -> bool
    ensures { result ≡ is_square most }
{
    most % 2 == 1 && are_octahedral_bits(digits_of(most))
}

/// The bits of the square of corrections.
#[tactic(auto, unfolding(crate::specs::Squared::square_at))]
fn read_square(c: &mut Cursor<'_>) -> Result<u8, Fault>
    ensures item { Reads (λ bits. bits) (square_at c.old) c.new result }
    ensures few { IfOk result (λ bits. (2 ≤ bits) × (bits ≤ 30)) }
{
    let fault = c.fault(Kind::QuantBits);
    let most = c.get_u32()?;
    if !is_square(most) {
        return Err(fault);
    }
    let _centre = c.get_u32()?;
    Ok(digits_of(most))
}

/// The flips of `n` entries.
#[tactic(auto, unfolding(crate::specs::Squared::flips_at))]
fn read_flips(
    alloc: Global,
    c: &mut Cursor<'_>,
    prediction: SquarePrediction,
    n: u32,
) -> Result<Vec<bool>, Refusal>
    ensures item { Gives (λ v. v.items) (flips_at prediction n c.old) c.new result }
    ensures none { IfOk result (λ v. (square_facts prediction).takes_positions ≡ false → v.items ≡ []) }
    ensures len { IfOk result (λ v. (square_facts prediction).takes_positions ≡ true → length v.items ≡ n) }
{
    if !prediction.facts().takes_positions {
        return Ok(Vec::new(alloc));
    }
    let block = BitBlock::read(c)?;
    let bits = bits_of(alloc, block, n)?;
    Ok(bits)
}

/// Whether the zigzag symbol of an integer is a coordinate of a square.
fn is_correction(greatest: u32, integer: i32) -> bool
    ensures { result ≡ is_correction greatest integer }
{
    symbol_of(integer) <= greatest
}

/// Whether the zigzag symbols of integers are coordinates of a square.
fn are_corrections(greatest: u32, integers: &[i32]) -> bool
    ensures { result ≡ list_all (is_correction greatest) integers.now }
{
    integers.iter().all(|x| is_correction(greatest, *x))
}

/// The zigzag symbol of an integer as a number with a sign.
fn correction_of(integer: i32) -> i32
    requires { zigzag_of integer < 2 ^ 30 }
    ensures { result ≡ correction_of integer }
{
    symbol_of(integer) as i32
}

/// Puts in place of integers their zigzag symbols, which are coordinates of a square.
fn take_corrections(greatest: u32, integers: &mut [i32])
    requires small { greatest < 2 ^ 30 }
    requires within { IsTrue (list_all (is_correction greatest) integers.old) }
    ensures corrections { integers.new ≡ map correction_of integers.old }
{
    let _greatest = greatest;
    for k in 0..integers.len() {
        integers[k] = correction_of(integers[k]);
    }
}

/// The greatest coordinate in a square of so many bits.
#[tactic(auto, using(std::proofs::lemmas::Nat::one_shl, std::proofs::lemmas::Nat::pow_pos, std::proofs::lemmas::Nat::pow_below))]
fn greatest_coordinate(bits: u8) -> u32
    requires some { 2 ≤ bits }
    requires few { bits ≤ 30 }
    ensures value { result ≡ greatest_coordinate bits }
    ensures small { result < 2 ^ 30 }
{
    (1u32 << bits) - 2
}

/// The square of so many bits.
pub(crate) fn square_of(bits: u8) -> Square
    requires some { 2 ≤ bits }
    requires few { bits ≤ 30 }
    ensures { result.centre ≡ centre_of bits }
{
    Square::of_bits(bits).unwrap()
}

/// The corrections in the square of so many bits that these integers have as their zigzag symbols; `ValueRange` where one of them is no
/// coordinate of it.
fn corrections_of(
    alloc: Global,
    bits: u8,
    integers: Integers<'_>,
) -> Result<Result<Vec<i32>, Kind>, Memory>
    requires some { 2 ≤ bits }
    requires most { bits ≤ 30 }
    ensures ok { IfOk result (λ r. IfOk r (λ v. (list_all (is_correction (greatest_coordinate bits)) (integers_of integers.entry) ≡ true) × (v.items ≡ map correction_of (integers_of integers.entry)))) }
    ensures err { IfOk result (λ r. IfErr r (λ k. (list_all (is_correction (greatest_coordinate bits)) (integers_of integers.entry) ≡ false) × (k ≡ kind.ValueRange))) }
    ensures within { IfOk result (λ r. IfOk r (λ v. AreValues (centre_of bits) v.items)) }
    ensures len { IfOk result (λ r. IfOk r (λ v. length v.items ≡ length (integers_of integers.entry))) }
{
    let greatest = greatest_coordinate(bits);
    let mut values = integers.into_list(alloc)?;
    if !are_corrections(greatest, &values) {
        return Ok(Err(Kind::ValueRange));
    }
    take_corrections(greatest, &mut values);
    Ok(Ok(values))
}

/// The values of integers whose zigzag symbols are corrections in the square of so many bits, by the normals of the faces round each entry
/// of an ordered surface; `ValueRange` where one of them is no coordinate of it. The normals are summed up before the integers are listed.
#[tactic(auto, unfolding(crate::specs::Squared::squared))]
fn restore_by_normals(
    alloc: Global,
    bits: u8,
    on: &Ordered<'_>,
    positions: &Positions<'_>,
    flips: &[bool],
    integers: Integers<'_>,
) -> Result<Result<Vec<i32>, Kind>, Memory>
    requires some { 2 ≤ bits }
    requires most { bits ≤ 30 }
    requires entries { HasEntries on.now }
    requires on { IsOrderedOf (length flips.now) on.now }
    requires each { length (integers_of integers) ≡ 2 * length flips.now }
    ensures due { IfOk result (λ r. MatchResult r (λ v. squared by.Normals (Some (surface on.now)) (Some (positions_in positions.now)) bits flips.now (integers_of integers.entry) ≡ Ok v.items) (λ k. squared by.Normals (Some (surface on.now)) (Some (positions_in positions.now)) bits flips.now (integers_of integers.entry) ≡ Err k)) }
    ensures len { IfOk result (λ r. IfOk r (λ v. length v.items ≡ length (integers_of integers.entry))) }
{
    let sums = normals_on(alloc, positions, on)?;
    match corrections_of(alloc, bits, integers)? {
        Err(kind) => Ok(Err(kind)),
        Ok(corrections) => {
            let mut values = corrections;
            restore_normals(square_of(bits), &sums, flips, &mut values);
            Ok(Ok(values))
        }
    }
}

/// The values of integers whose zigzag symbols are corrections in the square of so many bits, by the difference to the value before;
/// `ValueRange` where one of them is no coordinate of it.
#[tactic(auto, unfolding(crate::specs::Squared::squared))]
fn restore_by_difference(
    alloc: Global,
    bits: u8,
    integers: Integers<'_>,
) -> Result<Result<Vec<i32>, Kind>, Memory>
    requires some { 2 ≤ bits }
    requires most { bits ≤ 30 }
    requires even { length (integers_of integers) % 2 ≡ 0 }
    ensures due { (w : Option AnyOrdered) (ps : Option AnyPositions) → IfOk result (λ r. MatchResult r (λ v. squared by.Difference w ps bits [] (integers_of integers.entry) ≡ Ok v.items) (λ k. squared by.Difference w ps bits [] (integers_of integers.entry) ≡ Err k)) }
    ensures len { IfOk result (λ r. IfOk r (λ v. length v.items ≡ length (integers_of integers.entry))) }
{
    match corrections_of(alloc, bits, integers)? {
        Err(kind) => Ok(Err(kind)),
        Ok(corrections) => {
            let mut values = corrections;
            restore_differences(square_of(bits), &mut values);
            Ok(Ok(values))
        }
    }
}

/// The values of integers whose zigzag symbols are corrections in the square of so many bits, by a prediction that corrects; `ValueRange`
/// where one of them is no coordinate of it.
fn restore_symbols(
    alloc: Global,
    bits: u8,
    prediction: SquarePrediction,
    on: Option<&Ordered<'_>>,
    positions: Option<&Positions<'_>>,
    flips: &[bool],
    integers: Integers<'_>,
) -> Result<Result<Vec<i32>, Kind>, Memory>
    requires some { 2 ≤ bits }
    requires most { bits ≤ 30 }
    requires corrects { (square_facts prediction).corrects ≡ true }
    requires there { (square_facts prediction).takes_positions ≡ true → IsSome on × IsSome positions }
    requires few { MayHaveEntries (option_map (λ t. t.now) on) }
    requires even { length (integers_of integers) % 2 ≡ 0 }
    requires stand { MayBeOrderedOf (length (integers_of integers) / 2) (option_map (λ t. t.now) on) }
    requires none { (square_facts prediction).takes_positions ≡ false → flips.now ≡ [] }
    requires each { (square_facts prediction).takes_positions ≡ true → length flips.now ≡ length (integers_of integers) / 2 }
    ensures due { IfOk result (λ r. MatchResult r (λ v. squared prediction (surface_of (option_map (λ t. t.now) on.entry)) (option_map (λ p. positions_in p.now) positions.entry) bits flips.now (integers_of integers.entry) ≡ Ok v.items) (λ k. squared prediction (surface_of (option_map (λ t. t.now) on.entry)) (option_map (λ p. positions_in p.now) positions.entry) bits flips.now (integers_of integers.entry) ≡ Err k)) }
    ensures len { IfOk result (λ r. IfOk r (λ v. length v.items ≡ length (integers_of integers.entry))) }
{
    match (prediction, on, positions) {
        (SquarePrediction::Difference, _, _) => restore_by_difference(alloc, bits, integers),
        (SquarePrediction::Normals, Some(on), Some(positions)) => {
            restore_by_normals(alloc, bits, on, positions, flips, integers)
        }
        _ => unreachable!(),
    }
}

/// `n` values that are restored from corrections by this prediction, whose byte stands at `at`.
#[tactic(auto, unfolding(crate::specs::Squared::square_corrected_at, crate::specs::Openings::square_corrected_opening_at))]
fn read_square_corrected(
    alloc: Global,
    c: &mut Cursor<'_>,
    at: u64,
    prediction: SquarePrediction,
    on: Option<&Ordered<'_>>,
    positions: Option<&Positions<'_>>,
    n: u32,
) -> Result<Vec<i32>, Refusal>
    requires corrects { (square_facts prediction).corrects ≡ true }
    requires there { (square_facts prediction).takes_positions ≡ true → IsSome on × IsSome positions }
    requires few { n ≤ MAX_VALUES }
    requires even { n % 2 ≡ 0 }
    requires entries { MayHaveEntries (option_map (λ t. t.now) on) }
    requires on { MayBeOrderedOf (n / 2) (option_map (λ t. t.now) on) }
    ensures item { Gives (λ v. v.items) (square_corrected_at at prediction (surface_of (option_map (λ t. t.now) on.entry)) (option_map (λ p. positions_in p.now) positions.entry) n c.old) c.new result }
    ensures early { (f : AnyFault) → square_corrected_opening_at n c.old ≡ Err f → result ≡ Err (refusal.Fault f) }
    ensures len { IfOk result (λ v. length v.items ≡ n) }
{
    let _transform = read_square_transform(c)?;
    let integers = open_integers(alloc, c, 2, n)?;
    let bits = read_square(c)?;
    let flips = read_flips(alloc, c, prediction, n / 2)?;
    match restore_symbols(alloc, bits, prediction, on, positions, &flips, integers)? {
        Ok(values) => Ok(values),
        Err(kind) => Err(Refusal::Fault(Fault::new(kind, at))),
    }
}

/// `n` values of this prediction, whose byte stands at `at`. `NoPosition` there where the prediction takes positions, and none were read
/// that it can take.
#[tactic(auto, unfolding(crate::specs::Squared::square_predicted_at, crate::specs::Openings::square_predicted_opening_at))]
pub fn read_square_predicted(
    alloc: Global,
    c: &mut Cursor<'_>,
    at: u64,
    prediction: SquarePrediction,
    on: Option<&Ordered<'_>>,
    found: ReadPositions<'_>,
    n: u32,
) -> Result<Vec<i32>, Refusal>
    requires surface { (square_facts prediction).takes_positions ≡ true → IsSome on }
    requires few { n ≤ MAX_VALUES }
    requires even { n % 2 ≡ 0 }
    requires entries { MayHaveEntries (option_map (λ t. t.now) on) }
    requires on { MayBeOrderedOf (n / 2) (option_map (λ t. t.now) on) }
    ensures item { Gives (λ v. v.items) (square_predicted_at at prediction (surface_of (option_map (λ t. t.now) on.entry)) (read_in found.entry) n c.old) c.new result }
    ensures early { (f : AnyFault) → square_predicted_opening_at at prediction (read_in found.entry) n c.old ≡ Err f → result ≡ Err (refusal.Fault f) }
    ensures len { IfOk result (λ v. length v.items ≡ n) }
{
    let facts = prediction.facts();
    let positions = usable(&found);
    if facts.takes_positions && positions.is_none() {
        return Err(Refusal::Fault(Fault::new(Kind::NoPosition, at)));
    }
    if !facts.corrects {
        return read_integers(alloc, c, 2, n);
    }
    read_square_corrected(alloc, c, at, prediction, on, positions, n)
}
