//! Writing split events (Isenburg and Snoeyink 2001).

ghost use Rattle.std.specs.Prelude.{◌≡◌, ◌≤◌, ◌++◌, IfOk, OnOk, All, length, map, if◌then◌else◌};
ghost use Rattle.drc_bits.specs.Bits.{packed};
ghost use Rattle.eb_trace.specs.Writable.{RiseFrom};
ghost use Rattle.eb_section.specs.Written.{event_bytes, numbers_bytes, side_bit, events_bytes};

use corner_table::Event;
use drc_base::{MAX_FACES, Memory};
use drc_bits::{BitWriter, put_var32};
use std::alloc::Global;

/// Appends events: their number, the numbers of each, and a bit for each.
#[tactic(auto, unfolding(crate::specs::Written::events_bytes))]
pub(crate) fn put_events(alloc: Global, out: &mut Vec<u8>, events: &[Event]) -> Result<(), Memory>
    requires few { length events.now ≤ MAX_FACES }
    requires rise { RiseFrom 0 events.now }
    requires earlier { All (λ (e : Event). e.split ≤ e.source) events.now }
    ensures { OnOk result (out.new.items ≡ out.old.items ++ events_bytes events.now) }
{
    out.extend_from_slice(&put_var32(events.len() as u32))?;
    put_numbers(out, events)?;
    let sides = sides_of(alloc, events)?;
    out.extend_from_slice(sides.as_slice())?;
    Ok(())
}

/// Appends the numbers of an event behind one of this source: how far its source is from that, and how far
/// its split lies before its source.
fn put_event(out: &mut Vec<u8>, event: Event, before: u32) -> Result<(), Memory>
    requires rises { before ≤ event.source }
    requires earlier { event.split ≤ event.source }
    ensures { OnOk result (out.new.items ≡ out.old.items ++ event_bytes before event) }
{
    out.extend_from_slice(&put_var32(event.source - before))?;
    out.extend_from_slice(&put_var32(event.source - event.split))?;
    Ok(())
}

/// Appends the numbers of events, each behind the one before it, and the first behind source 0.
fn put_numbers(out: &mut Vec<u8>, events: &[Event]) -> Result<(), Memory>
    requires rise { RiseFrom 0 events.now }
    requires earlier { All (λ (e : Event). e.split ≤ e.source) events.now }
    ensures { OnOk result (out.new.items ≡ out.old.items ++ numbers_bytes 0 events.now) }
{
    let mut before: u32 = 0;
    for i in 0..events.len() {
        put_event(out, events[i], before)?;
        before = events[i].source;
    }
    Ok(())
}

/// The bytes of the bits of events, of which each gives a side.
fn sides_of(alloc: Global, events: &[Event]) -> Result<Vec<u8>, Memory>
    ensures { IfOk result (λ v. v.items ≡ packed (map side_bit events.now)) }
{
    let mut bits = BitWriter::new(alloc);
    for i in 0..events.len() {
        bits.put(1, bit_of_side(events[i].right))?;
    }
    Ok(bits.finish())
}

/// The bit of a side: 1 for the right one.
fn bit_of_side(right: bool) -> u32
    ensures is { result ≡ (if right then 1 else 0) }
    ensures bit { result ≤ 1 }
{
    if right { 1 } else { 0 }
}
