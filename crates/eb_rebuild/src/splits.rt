//! The split events that are left, and the sides that earlier ones keep.

ghost use Rattle.std.specs.Prelude.{◌≡◌, ◌+◌, ◌*◌, ◌<◌, ◌≤◌, [], min, vec_len, slice_index_or, map, reverse, replicate, All, IfOk};
ghost use Rattle.drc_base.specs.declared.limits.TheConstants.{MAX_FACES as most_faces};
ghost use Rattle.corner_table.specs.Sides.{side, number};
ghost use Rattle.corner_table.specs.Table.{free_entry};
ghost use Rattle.eb_machine.specs.Machine.{event_place};
ghost use Rattle.eb_machine.specs.Events.{IsEventOf};
ghost use Rattle.eb_rebuild.specs.Kept.{no_event, split_number};

use crate::kept_sides::{KeptSides, NONE};
use crate::side_stack::SideStack;
use corner_table::Event;
use drc_base::{Fault, Kind, Memory};
use std::alloc::Global;
use std::marker::Model;

/// Sides kept for the symbols of a rebuilding, and the events left. Events stand in the encoder's
/// order, so the last ones are due first.
#[derive(Debug, Drop)]
pub struct Splits {
    kept: KeptSides,
    events: Vec<Event>,
    left: usize,
}

impl Model for Splits {
    ghost use Rattle.std.specs.Prelude.{◌<◌, ◌≤◌, ◌*◌, vec_len, length, All};
    ghost use Rattle.drc_base.specs.declared.limits.TheConstants.{MAX_FACES as most_faces};
    ghost use Rattle.eb_machine.specs.Events.{IsEventOf};
    ghost use Rattle.eb_rebuild.specs.Kept.{SplitsValue, counted_down, no_event, HasRoomFor};

    ghost Value = { SplitsValue };

    ghost view = { λ s. record { kept = s.kept.sides; events = counted_down no_event s.left s.events.items } };

    ghost invariant = { λ s. (s.left ≤ vec_len s.events) × (length s.kept.sides ≤ most_faces) × All (IsEventOf (length s.kept.sides)) s.events.items
        × All (HasRoomFor s.kept.numbers (length s.kept.sides)) s.events.items };
}

/// The event with a number.
fn event_at(events: &Vec<Event>, number: usize) -> Event
    requires { number < vec_len events.now }
    ensures { result ≡ slice_index_or events.now.items number no_event }
{
    events[number]
}

/// The symbol for which an event keeps a side, by its number in the order of decoding.
fn split_number(symbols: u32, event: Event) -> u32
    ensures { result ≡ split_number symbols event }
{
    symbols.saturating_sub(1).saturating_sub(event.split)
}

/// The symbols for which events keep sides.
fn split_numbers(alloc: Global, symbols: u32, events: &Vec<Event>) -> Result<Vec<u32>, Memory>
    ensures { IfOk result (λ v. v.items ≡ map (split_number symbols) events.now.items) }
{
    Ok(
        events
            .as_slice()
            .iter()
            .map(|event| split_number(symbols, *event))
            .collect(alloc)?,
    )
}

/// The side of a face that an event keeps: the one of the corner after the walk's corner, or before it.
fn event_side(face: u32, right: bool) -> u32
    requires { face < most_faces }
    ensures side { result ≡ number (side face (event_place right)) }
    ensures within { result < 3 * face + 3 }
{
    if right { 3 * face + 1 } else { 3 * face + 2 }
}

/// A stack on which no side waits, with room for one for each symbol, but no more than `most`, and the
/// events of these symbols with no side kept yet.
pub fn waiting(
    alloc: Global,
    symbols: u32,
    most: u32,
    events: Vec<Event>,
) -> Result<(SideStack, Splits), Memory>
    requires symbols { symbols ≤ most_faces }
    requires events { All (IsEventOf symbols) events.items }
    ensures sides { IfOk result (λ p. p.0.sides ≡ []) }
    ensures room { IfOk result (λ p. p.0.room ≡ min symbols most) }
    ensures kept { IfOk result (λ p. p.1.kept ≡ replicate symbols free_entry) }
    ensures events { IfOk result (λ p. p.1.events ≡ reverse events.items) }
{
    let stack = SideStack::with_room(alloc, symbols.min(most))?;
    let splits = Splits::new(alloc, symbols, events)?;
    Ok((stack, splits))
}

impl Splits {
    ghost use Rattle.std.specs.Prelude.{◌≡◌, ℕ, suc, ◌+◌, ◌<◌, ◌≤◌, ◌*◌, List, length, reverse, All, IfOk, OnOk, IfErr, IfSome, IfNone, Ok, Err, replicate, MatchResult};
    ghost use Rattle.std.specs.Option.{option_map};
    ghost use Rattle.corner_table.specs.Sides.{side_at};
    ghost use Rattle.corner_table.specs.Table.{free_entry};
    ghost use Rattle.eb_machine.specs.Machine.{note_events, release};
    ghost use Rattle.eb_machine.specs.Events.{IsEventOf};
    ghost use Rattle.eb_rebuild.specs.Kept.{kept_in, AreKeptBelow};

    /// No side kept, for as many symbols as are said, with events in the encoder's order. There is room
    /// for the sides of these events.
    fn new(alloc: Global, symbols: u32, events: Vec<Event>) -> Result<Splits, Memory>
        requires symbols { symbols ≤ most_faces }
        requires events { All (IsEventOf symbols) events.items }
        ensures kept { IfOk result (λ s. s.kept ≡ replicate symbols free_entry) }
        ensures events { IfOk result (λ s. s.events ≡ reverse events.items) }
    {
        let left = events.len();
        let numbers = split_numbers(alloc, symbols, &events)?;
        let kept = KeptSides::new(alloc, symbols, numbers)?;
        Ok(Splits { kept, events, left })
    }

    /// Notes the events of a symbol, whose face has its number: each keeps a side of the face for the
    /// symbol that it names.
    #[inline(always)]
    pub fn note(&mut self, face: u32) -> Result<(), Fault>
        requires face { face < length self.old.kept }
        requires limit { length self.old.kept ≤ most_faces }
        ensures noted { MatchResult result
            (λ _. note_events (length self.old.kept) face self.old.events (kept_in self.old.kept) ≡ Ok (self.new.events, kept_in self.new.kept))
            (λ f. note_events (length self.old.kept) face self.old.events (kept_in self.old.kept) ≡ Err f) }
        ensures long { length self.new.kept ≡ length self.old.kept }
        ensures below { AreKeptBelow face self.old.kept → AreKeptBelow (suc face) self.new.kept }
    {
        if self.left == 0 {
            return Ok(());
        }
        let due = self.kept.symbols() - 1 - face;
        if event_at(&self.events, self.left - 1).source < due {
            return Ok(());
        }
        self.note_due(face)
    }

    /// Notes the events of a symbol one by one, from the last one left.
    fn note_due(&mut self, face: u32) -> Result<(), Fault>
        requires face { face < length self.old.kept }
        requires limit { length self.old.kept ≤ most_faces }
        ensures noted { MatchResult result
            (λ _. note_events (length self.old.kept) face self.old.events (kept_in self.old.kept) ≡ Ok (self.new.events, kept_in self.new.kept))
            (λ f. note_events (length self.old.kept) face self.old.events (kept_in self.old.kept) ≡ Err f) }
        ensures long { length self.new.kept ≡ length self.old.kept }
        ensures below { AreKeptBelow face self.old.kept → AreKeptBelow (suc face) self.new.kept }
    {
        let symbols = self.kept.symbols();
        let due = symbols - 1 - face;
        'noting: loop {
            if self.left == 0 {
                return Ok(());
            }
            let event = event_at(&self.events, self.left - 1);
            if event.source < due {
                return Ok(());
            }
            if due < event.source {
                return Err(Fault::new(Kind::EventOrder, u64::from(face)));
            }
            let split = split_number(symbols, event);
            if !self.kept.keep(split, event_side(face, event.right)) {
                return Err(Fault::new(Kind::Taken, u64::from(face)));
            }
            self.left -= 1;
        }
    }

    /// The side kept for a symbol, which is kept no more.
    #[inline(always)]
    pub fn take(&mut self, symbol: u32) -> Option<u32>
        requires { symbol < length self.old.kept }
        ensures side { option_map side_at result ≡ kept_in self.old.kept symbol }
        ensures released { kept_in self.new.kept ≡ release symbol (kept_in self.old.kept) }
        ensures events { self.new.events ≡ self.old.events }
        ensures long { length self.new.kept ≡ length self.old.kept }
        ensures below { (faces : ℕ) → AreKeptBelow faces self.old.kept → AreKeptBelow faces self.new.kept }
        ensures within { (faces : ℕ) → AreKeptBelow faces self.old.kept → IfSome result (λ side. side < 3 * faces) }
    {
        let side = self.kept.take(symbol);
        if side == NONE { None } else { Some(side) }
    }
}
