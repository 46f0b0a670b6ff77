//! What the walk notes.

ghost use Rattle.std.specs.Prelude.{◌≡◌, ◌+◌, ◌<◌, ◌++◌, ◌∷◌, IfOk, OnOk, vec_len, reverse, []};
ghost use Rattle.corner_table.specs.Sides.{side_at};
ghost use Rattle.eb_trace.specs.Stored.{noted_walk, split_told};
ghost use Rattle.eb_trace.specs.Trace.{event_noted, nothing_walked};

use crate::numbers::NONE;
use corner_table::{Event, Symbol};
use drc_base::Memory;
use std::alloc::Global;

/// One symbol, and the corner at which its face was entered.
#[derive(Clone, Copy, Debug)]
pub(crate) struct Entered {
    pub(crate) corner: u32,
    pub(crate) symbol: Symbol,
}

/// What the walk notes, each list with the last at its end.
#[derive(Drop)]
pub(crate) struct Notes {
    pub(crate) entries: Vec<Entered>,
    pub(crate) interior: Vec<u32>,
    pub(crate) kept: Vec<u32>,
    pub(crate) events: Vec<Event>,
    pub(crate) bits: Vec<bool>,
}

/// Nothing is noted; there is room for the entries of all faces.
pub(crate) fn no_notes(alloc: Global, faces: u32) -> Result<Notes, Memory>
    ensures walk { IfOk result (λ n. noted_walk n ≡ nothing_walked) }
    ensures kept { IfOk result (λ n. n.kept.items ≡ []) }
{
    Ok(Notes {
        entries: Vec::with_capacity(alloc, faces as usize)?,
        interior: Vec::new(alloc),
        kept: Vec::new(alloc),
        events: Vec::new(alloc),
        bits: Vec::new(alloc),
    })
}

/// Notes the event by a symbol of an S, if there is one.
#[inline(always)]
pub(crate) fn note_event(
    events: &mut Vec<Event>,
    source: u32,
    right: bool,
    split: u32,
) -> Result<(), Memory>
    ensures { OnOk result (reverse events.new.items ≡ event_noted source right (split_told split) ++ reverse events.old.items) }
{
    if split != NONE {
        events.push(Event {
            source,
            split,
            right,
        })?;
    }
    Ok(())
}
