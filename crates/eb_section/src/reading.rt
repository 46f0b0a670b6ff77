//! Reading the section.

ghost use Rattle.std.specs.Prelude.{◌≡◌, ◌+◌, ◌*◌, ◌≤◌, Err, All, IfOk, IsTrue, OnErr, length};
ghost use Rattle.drc_base.specs.declared.limits.TheConstants.{MAX_FACES as most_faces, MAX_ATTRIBUTES as most_attributes};
ghost use Rattle.drc_base.specs.declared.faults.Fault.{Fault as AnyFault};
ghost use Rattle.drc_base.specs.declared.faults.Refusal.TheVariants as refusal;
ghost use Rattle.drc_base.specs.Profile.{profile};
ghost use Rattle.drc_bits.specs.Reading.{Gives};
ghost use Rattle.eb_machine.specs.Events.{IsEventOf};
ghost use Rattle.eb_section.specs.Calls.{declared_faces, faces_from, faces_there, lists_behind, most_calls, symbols_behind, symbols_in_bits, symbols_in_lists};
ghost use Rattle.eb_section.specs.Opening.{opening_at};
ghost use Rattle.eb_section.specs.Events.{event_count_at, events_at};
ghost use Rattle.eb_section.specs.Connectivity.{behind_at, connectivity_at, declared_at, meaning, standard_at, standard_behind, valence_behind};

use crate::blocks::read_blocks;
use crate::contexts::read_contexts;
use crate::events::read_events;
use crate::opening::{Opening, read_opening};
use crate::rebuilding::rebuild_linked;
use crate::sources::BitSource;
use corner_table::{Event, Steps};
use drc_base::{MAX_POINTS, Refusal, Sequence};
use drc_bits::Cursor;
use eb_rebuild::Built;
use rans_binary::BitBlock;
use std::alloc::Global;
use std::sync::ledger::Ledger;

/// The connectivity of an Edgebreaker mesh, as it was read.
#[derive(Drop)]
pub struct EbRead<'a> {
    /// The surface, its faces in the order of decoding.
    pub sides: Built,
    /// Whether symbols were coded by the degrees of vertices, and not by themselves.
    pub valence: bool,
    /// How many attribute data there are, of which each has seams of its own.
    pub attr_data: u8,
    /// For each attribute data the block of its seam bits.
    pub seams: Sequence<BitBlock<'a>>,
    /// The declared number of symbols.
    pub symbols: u32,
    /// The declared number of splits.
    pub splits: u32,
    /// The number of split events.
    pub events: u32,
}

/// What was read, of these parts.
fn read_of<'a>(sides: Built, opening: Opening, seams: Vec<BitBlock<'a>>, events: u32) -> EbRead<'a>
    ensures { result ≡ record { sides = sides; valence = opening.valence; attr_data = opening.attr_data; seams = seams.entry.items; symbols = opening.symbols; splits = opening.splits; events = events } }
{
    EbRead {
        sides,
        valence: opening.valence,
        attr_data: opening.attr_data,
        seams: Sequence::from_vec(seams),
        symbols: opening.symbols,
        splits: opening.splits,
        events,
    }
}

/// Reads what is behind the events of the standard traversal: the symbols, the block of start bits, and
/// those of seam bits; then rebuilds the surface.
#[tactic(auto, unfolding(crate::specs::Connectivity::standard_behind))]
fn read_standard<'a, L: Ledger>(
    alloc: Global,
    c: &mut Cursor<'a>,
    opening: Opening,
    events: Vec<Event>,
    steps: &mut Steps<L>,
) -> Result<EbRead<'a>, Refusal>
    requires vertices { opening.vertices ≤ MAX_POINTS }
    requires faces { opening.faces ≤ most_faces }
    requires symbols { opening.symbols ≤ opening.faces }
    requires splits { opening.splits ≤ opening.symbols }
    requires events { All (IsEventOf opening.symbols) events.items }
    requires few { length events.items ≤ opening.faces }
    ensures section { Gives meaning (standard_behind opening events.items c.old) c.new result }
    ensures linked { IfOk result (λ r. IsTrue r.sides.linked) }
    ensures faces { IfOk result (λ r. r.sides.table.faces ≡ opening.faces) }
    ensures room { IfOk result (λ r. length r.sides.table.entries ≤ 3 * opening.faces) }
    ensures attr_data { IfOk result (λ r. r.attr_data ≡ opening.attr_data) }
    ensures seams { IfOk result (λ r. length r.seams ≡ opening.attr_data) }
    ensures cost { steps.new ≤ steps.old + most_calls opening.faces }
    ensures read_cost { steps.new ≤ steps.old + most_calls (faces_from opening.faces (symbols_in_bits opening.symbols (standard_at c.old))) }
{
    let count = events.len() as u32;
    let source = BitSource::read(c)?;
    let start_bits = BitBlock::read(c)?;
    let seam_bits = read_blocks(alloc, c, opening.attr_data)?;
    let sides = rebuild_linked(alloc, opening, events, source, start_bits, steps)?;
    Ok(read_of(sides, opening, seam_bits, count))
}

/// Reads what is behind the events of the valence traversal: the block of start bits, those of seam bits,
/// and the symbols of each context; then rebuilds the surface.
#[tactic(auto, unfolding(crate::specs::Connectivity::valence_behind, crate::specs::Calls::lists_behind))]
fn read_valence<'a, L: Ledger>(
    alloc: Global,
    c: &mut Cursor<'a>,
    opening: Opening,
    events: Vec<Event>,
    steps: &mut Steps<L>,
) -> Result<EbRead<'a>, Refusal>
    requires vertices { opening.vertices ≤ MAX_POINTS }
    requires faces { opening.faces ≤ most_faces }
    requires symbols { opening.symbols ≤ opening.faces }
    requires splits { opening.splits ≤ opening.symbols }
    requires events { All (IsEventOf opening.symbols) events.items }
    requires few { length events.items ≤ opening.faces }
    ensures section { Gives meaning (valence_behind opening events.items c.old) c.new result }
    ensures linked { IfOk result (λ r. IsTrue r.sides.linked) }
    ensures faces { IfOk result (λ r. r.sides.table.faces ≡ opening.faces) }
    ensures room { IfOk result (λ r. length r.sides.table.entries ≤ 3 * opening.faces) }
    ensures attr_data { IfOk result (λ r. r.attr_data ≡ opening.attr_data) }
    ensures seams { IfOk result (λ r. length r.seams ≡ opening.attr_data) }
    ensures cost { steps.new ≤ steps.old + most_calls opening.faces }
    ensures read_cost { steps.new ≤ steps.old + most_calls (faces_from opening.faces (symbols_in_lists opening.symbols (lists_behind opening c.old))) }
{
    let count = events.len() as u32;
    let starts = BitBlock::read(c)?;
    let seams = read_blocks(alloc, c, opening.attr_data)?;
    let source = read_contexts(alloc, c, opening.symbols)?;
    let sides = rebuild_linked(alloc, opening, events, source, starts, steps)?;
    Ok(read_of(sides, opening, seams, count))
}

/// Reads what is behind the opening: the events, and the rest of the traversal.
#[tactic(auto, unfolding(crate::specs::Connectivity::behind_at))]
fn read_behind<'a, L: Ledger>(
    alloc: Global,
    c: &mut Cursor<'a>,
    opening: Opening,
    steps: &mut Steps<L>,
) -> Result<EbRead<'a>, Refusal>
    requires vertices { opening.vertices ≤ MAX_POINTS }
    requires faces { opening.faces ≤ most_faces }
    requires symbols { opening.symbols ≤ opening.faces }
    requires splits { opening.splits ≤ opening.symbols }
    ensures section { Gives meaning (behind_at opening c.old) c.new result }
    ensures early { (f : AnyFault) → event_count_at opening.faces c.old ≡ Err f → result ≡ Err (refusal.Fault f) }
    ensures linked { IfOk result (λ r. IsTrue r.sides.linked) }
    ensures faces { IfOk result (λ r. r.sides.table.faces ≡ opening.faces) }
    ensures room { IfOk result (λ r. length r.sides.table.entries ≤ 3 * opening.faces) }
    ensures attr_data { IfOk result (λ r. r.attr_data ≡ opening.attr_data) }
    ensures seams { IfOk result (λ r. length r.seams ≡ opening.attr_data) }
    ensures cost { steps.new ≤ steps.old + most_calls opening.faces }
    ensures read_cost { steps.new ≤ steps.old + most_calls (faces_from opening.faces (symbols_behind opening (events_at opening c.old))) }
{
    let events = read_events(alloc, c, opening)?;
    if opening.valence {
        return read_valence(alloc, c, opening, events, steps);
    }
    read_standard(alloc, c, opening, events, steps)
}

/// Reads the connectivity of an Edgebreaker mesh and rebuilds its surface by links, or refuses with the
/// first fault. Those of the opening, each at its place: `Traversal`, `PointLimit`, `FaceLimit`,
/// `AttrLimit`, and `Count` of symbols, splits and events; they come before memory is taken. Then, at
/// their places, `EventDelta`, `Short` and `Long`, those of a block of bits (`BadProb`, `BadStart`) and of
/// the lists of contexts (`Count`, and those of a symbol block). Then those of rebuilding: `Short` at the
/// first byte of the symbols where the bits of a symbol aren't there; `ContextEmpty` and `BadSymbol`, and
/// those of the machine's rules, at the symbol's number in the order of decoding; and at the end
/// `FaceCount`, `VertexCount` and `Degenerate`. Symbols, events, bits and coded bytes that are left over
/// are passed. It makes at most 11 table calls for each face that can be built and 4 more, and none where no
/// face can be: that many are declared, and there are no more than two for each symbol that the bits or the
/// lists can give. After a refusal the cursor is where it was.
#[tactic(auto, unfolding(crate::specs::Connectivity::connectivity_at, crate::specs::Connectivity::declared_at))]
pub fn read_connectivity<'a, L: Ledger>(
    alloc: Global,
    c: &mut Cursor<'a>,
    steps: &mut Steps<L>,
) -> Result<EbRead<'a>, Refusal>
    ensures section { Gives meaning (connectivity_at profile c.old) c.new result }
    ensures early { (f : AnyFault) → opening_at profile c.old ≡ Err f → result ≡ Err (refusal.Fault f) }
    ensures early_count { (f : AnyFault) → declared_at profile c.old ≡ Err f → result ≡ Err (refusal.Fault f) }
    ensures unchanged { OnErr result (c.new ≡ c.old) }
    ensures linked { IfOk result (λ r. IsTrue r.sides.linked) }
    ensures cost { steps.new ≤ steps.old + most_calls (declared_faces (opening_at profile c.old)) }
    ensures read_cost { steps.new ≤ steps.old + most_calls (faces_there (opening_at profile c.old)) }
    ensures room { IfOk result (λ r. length r.sides.table.entries ≤ 3 * r.sides.table.faces) }
    ensures faces { IfOk result (λ r. r.sides.table.faces ≤ most_faces) }
    ensures attr_data { IfOk result (λ r. r.attr_data ≤ most_attributes) }
    ensures seams { IfOk result (λ r. length r.seams ≡ r.attr_data) }
{
    let mut ahead = c.copy();
    let opening = read_opening(&mut ahead)?;
    let read = read_behind(alloc, &mut ahead, opening, steps)?;
    *c = ahead;
    Ok(read)
}
