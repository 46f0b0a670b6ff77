//! Reading split events (Isenburg and Snoeyink 2001; Draco Bitstream Specification 2.2, section
//! "Edgebreaker Connectivity", topology splits).

ghost use Rattle.std.specs.Prelude.{◌≡◌, ℕ, ◌+◌, ◌*◌, ◌<◌, ◌≤◌, ◌==◌, Err, All, IfOk, take, length, vec_len};
ghost use Rattle.drc_base.specs.declared.limits.TheConstants.{MAX_FACES as most_faces};
ghost use Rattle.drc_base.specs.declared.faults.Fault.{Fault as AnyFault};
ghost use Rattle.drc_bits.specs.Bits.{bits_of, bits_left};
ghost use Rattle.drc_bits.specs.Reading.{Reads, Gives, chain_at};
ghost use Rattle.eb_machine.specs.Events.{IsEventOf};
ghost use Rattle.eb_section.specs.Events.{no_numbers, numbers_at, events_of, event_count_at, events_at, IsSideBefore, AreNumbersOf};

use crate::opening::{Opening, read_count};
use corner_table::Event;
use drc_base::{Fault, Kind, Memory, Refusal};
use drc_bits::{BitReader, Cursor};
use std::alloc::Global;

/// The numbers of a split event. Symbols are counted in the order of the encoder, from 0.
#[derive(Clone, Copy, Debug)]
pub(crate) struct EventNumbers {
    /// The number of the symbol that met the split.
    pub(crate) source: u32,
    /// The number of the split.
    pub(crate) split: u32,
}

/// Reads the numbers of the event behind one, each as a distance: from the source before up to the
/// source, and from there down to the split. `EventDelta` of the first where the source isn't below the
/// number of symbols, of the second where it is greater than the source.
#[tactic(auto, unfolding(crate::specs::Events::numbers_at))]
fn read_numbers(
    c: &mut Cursor<'_>,
    symbols: u32,
    before: EventNumbers,
) -> Result<EventNumbers, Fault>
    ensures numbers { Reads (λ n. n) (numbers_at symbols before c.old) c.new result }
    ensures within { IfOk result (λ n. AreNumbersOf symbols n) }
{
    let too_far = c.fault(Kind::EventDelta);
    let ahead = c.var32()?;
    let source = u64::from(before.source) + u64::from(ahead);
    if source >= u64::from(symbols) {
        return Err(too_far);
    }
    let source = source as u32;
    let too_deep = c.fault(Kind::EventDelta);
    let back = c.var32()?;
    if back > source {
        return Err(too_deep);
    }
    Ok(EventNumbers {
        source,
        split: source - back,
    })
}

/// Reads the numbers of so many events. They take two bytes each at least, and room is made as they are
/// read.
fn read_each_numbers(
    alloc: Global,
    c: &mut Cursor<'_>,
    count: u32,
    symbols: u32,
) -> Result<Vec<EventNumbers>, Refusal>
    ensures numbers { Gives (λ v. v.items) (chain_at (numbers_at symbols) count no_numbers c.old) c.new result }
    ensures within { IfOk result (λ v. All (AreNumbersOf symbols) v.items) }
    ensures len { IfOk result (λ v. vec_len v ≡ count) }
{
    let mut numbers = Vec::new(alloc);
    let mut before = EventNumbers {
        source: 0,
        split: 0,
    };
    for _k in 0..count {
        before = read_numbers(c, symbols, before)?;
        numbers.push(before)?;
    }
    Ok(numbers)
}

/// Whether a bit is that of the right side.
fn is_right(bit: u32) -> bool
    ensures { result ≡ (bit == 1) }
{
    bit == 1
}

/// Whether the next bit, which is there, is that of the right side.
fn next_side(sides: &mut BitReader<'_>) -> bool
    requires { 0 < length (bits_left sides.old) }
    ensures { IsSideBefore result (bits_left sides.new) (bits_left sides.old) }
{
    is_right(sides.bits(1).unwrap())
}

/// The events of these numbers, with their sides in the bits of these bytes.
fn with_sides(alloc: Global, numbers: &[EventNumbers], bytes: &[u8]) -> Result<Vec<Event>, Memory>
    requires enough { length numbers.now ≤ 8 * length bytes.now }
    ensures events { IfOk result (λ v. v.items ≡ events_of numbers.now (take (length numbers.now) (bits_of bytes.now))) }
    ensures len { IfOk result (λ v. vec_len v ≡ length numbers.now) }
{
    let mut sides = BitReader::new(bytes);
    let mut events = Vec::new(alloc);
    for k in 0..numbers.len() {
        let right = next_side(&mut sides);
        events.push(Event {
            source: numbers[k].source,
            split: numbers[k].split,
            right,
        })?;
    }
    Ok(events)
}

/// Reads the split events, in the order of the encoder: their number, `Count` where it is greater than
/// that of faces; their numbers, which may be `EventDelta`; and the bits of their sides. The fault of
/// their number comes before any memory is taken.
#[tactic(auto, unfolding(crate::specs::Events::events_at))]
pub(crate) fn read_events(
    alloc: Global,
    c: &mut Cursor<'_>,
    opening: Opening,
) -> Result<Vec<Event>, Refusal>
    requires few { opening.faces ≤ most_faces }
    ensures events { Gives (λ v. v.items) (events_at opening c.old) c.new result }
    ensures early { (f : AnyFault) → event_count_at opening.faces c.old ≡ Err f → result ≡ Err (Refusal.Fault f) }
    ensures within { IfOk result (λ v. All (IsEventOf opening.symbols) v.items) }
    ensures len { IfOk result (λ v. vec_len v ≤ opening.faces) }
{
    let count = read_count(c, opening.faces, Kind::Count)?;
    let numbers = read_each_numbers(alloc, c, count, opening.symbols)?;
    let bytes = c.bits(count)?;
    Ok(with_sides(alloc, numbers.as_slice(), bytes)?)
}
