//! Rebuilding a surface from its symbols, the last first.

ghost use Rattle.std.specs.Prelude.{◌≡◌, ◌≢◌, ℕ, ◌+◌, ◌*◌, ◌<◌, ◌≤◌, Bool, true, false, List, reverse, length, All, IfOk, OnOk, OnErr, IsTrue, Err};
ghost use Rattle.drc_base.specs.declared.limits.TheConstants.{MAX_FACES as most_faces};
ghost use Rattle.drc_base.specs.declared.faults.Refusal.TheVariants as refusal;
ghost use Rattle.eb_machine.specs.Machine.{Plan as MachinePlan, State as MachineState, start, step, close};
ghost use Rattle.eb_machine.specs.Degree.{top_degree};
ghost use Rattle.eb_machine.specs.Events.{IsEventOf};
ghost use Rattle.eb_rebuild.specs.Calls.{symbol_calls};
ghost use Rattle.eb_rebuild.specs.Rebuilding.{Moves, Ends};

use crate::built::Built;
use corner_table::{Event, Steps, Symbol};
use drc_base::{Memory, Refusal};
use std::alloc::Global;
use std::sync::ledger::Ledger;

/// A rebuilding of a surface: the machine that is fed the symbols, the last first, and then closes the
/// sides that are left (Isenburg and Snoeyink 2001; Draco Bitstream Specification 2.2, Edgebreaker).
/// After a refusal the value is given up. Of a linked rebuilding `symbol` and `close` take no memory,
/// and few table calls, and `finish` looks at the entries once. Its table calls count in the ledger `L`: the
/// table that it grows is tied to that ledger, so that no other count is taken.
pub trait Rebuild<L: Ledger>: Sized + Drop {
    /// What is declared.
    ghost plan: { Self → MachinePlan };

    /// The machine's state.
    ghost state: { Self → MachineState };

    /// True of each rebuilding that was refused nothing.
    ghost live: { Self → Bool };

    /// Whether the boundary is kept by links.
    ghost linked: { Self → Bool };

    /// Whether degrees of vertices can be asked for.
    ghost has_degrees: { Self → Bool };

    /// How many faces there is room for.
    ghost room: { Self → ℕ };

    /// Nothing rebuilt yet, of `faces` declared faces, at most `created` vertices made (the declared
    /// vertices and splits together) and `symbols` symbols, with events in the encoder's order. Room is
    /// taken for `most` faces only and for the sides that the events keep, however much is declared.
    /// `degrees` says whether the degrees of vertices will be asked for; where they won't, a linked
    /// rebuilding keeps none. Memory where there is none.
    fn new(
        alloc: Global,
        faces: u32,
        created: u32,
        symbols: u32,
        most: u32,
        events: Vec<Event>,
        degrees: bool,
    ) -> Result<Self, Memory>
        requires faces { faces ≤ most_faces }
        requires symbols { symbols ≤ faces }
        requires most { most ≤ faces }
        requires events { All (IsEventOf symbols) events.items }
        ensures plan { IfOk result (λ r. plan r ≡ record { faces = faces; created = created; symbols = symbols }) }
        ensures state { IfOk result (λ r. state r ≡ start (reverse events.items)) }
        ensures live { IfOk result (λ r. IsTrue (live r)) }
        ensures room { IfOk result (λ r. room r ≡ most) }
        ensures degrees { IfOk result (λ r. IsTrue degrees → IsTrue (has_degrees r)) };

    /// Takes the next symbol and builds its face, or refuses at the symbol's number, counted from 0 in
    /// the order of decoding. NoActive: C, L, R or S finds no side on the stack. Gone: the side that it
    /// finds is glued, or the two sides of an S are one. Alone: the top side of a C is alone in its
    /// loop. SamePoint: the two vertices that an S joins are one already. EventOrder: the last event
    /// left at an E, L or R is of a symbol taken before. Taken, this project's choice: its split has a
    /// side kept already. Memory, of a rebuilding that isn't linked: no room for the step. There has to be
    /// room for the face. A linked rebuilding makes at most as many table calls as the symbol takes by its
    /// kind, 1 for an E to 8 for an S, and at most 4 where it refuses.
    fn symbol(&mut self, symbol: Symbol, steps: &mut Steps<L>) -> Result<(), Refusal>
        requires live { IsTrue (live self.old) }
        requires more { (state self.old).built < (plan self.old).symbols }
        requires room { (state self.old).built < room self.old }
        requires unclosed { (state self.old).closes ≡ 0 }
        ensures moves { Moves (step (plan self.old).symbols symbol (state self.old)) (state self.new) (live self.new) result }
        ensures plan { OnOk result (plan self.new ≡ plan self.old) }
        ensures linked { OnOk result (linked self.new ≡ linked self.old) }
        ensures room { OnOk result (room self.new ≡ room self.old) }
        ensures degrees { OnOk result (has_degrees self.new ≡ has_degrees self.old) }
        ensures memory { IsTrue (linked self.old) → result ≢ Err refusal.Memory }
        ensures cost { IsTrue (linked self.old) → OnOk result (steps.new ≤ steps.old + symbol_calls symbol) }
        ensures refused { IsTrue (linked self.old) → OnErr result (steps.new ≤ steps.old + 4) };

    /// The degree of the vertex at which the top side starts: the number of corners there, and one more
    /// where a free side starts there; 0 where no side waits. The rebuilding was made to be asked for it.
    fn degree(&self) -> u32
        requires live { IsTrue (live self.now) }
        requires degrees { IsTrue (has_degrees self.now) }
        requires unclosed { (state self.now).closes ≡ 0 }
        ensures { result ≡ top_degree (state self.now) };

    /// How many sides wait to be closed.
    fn pending(&self) -> u32
        requires live { IsTrue (live self.now) }
        requires all { (plan self.now).symbols ≤ (state self.now).built }
        ensures count { result ≡ length (state self.now).stack }
        ensures few { result + (state self.now).closes ≤ (plan self.now).symbols };

    /// Closes the top side by its start bit: it stays a boundary, or an interior face fills its loop of
    /// three. An interior face is refused with Gone where the side is glued, and with Loop where its
    /// loop isn't of exactly three sides, at the number of symbols and closes before; then with FaceCount
    /// where all declared faces are built, at their number. Memory, of a rebuilding that isn't linked:
    /// no room for the face. There has to be room for one more of the declared faces, if any are left. That
    /// the loop has to be exact is this project's choice. A linked rebuilding makes at most 8 table calls for
    /// an interior face, 4 where it refuses, and none for a boundary.
    fn close(&mut self, interior: bool, steps: &mut Steps<L>) -> Result<(), Refusal>
        requires live { IsTrue (live self.old) }
        requires all { (plan self.old).symbols ≤ (state self.old).built }
        requires pending { 0 < length (state self.old).stack }
        requires room { (state self.old).built < (plan self.old).faces → (state self.old).built < room self.old }
        ensures moves { Moves (close (plan self.old) interior (state self.old)) (state self.new) (live self.new) result }
        ensures plan { OnOk result (plan self.new ≡ plan self.old) }
        ensures linked { OnOk result (linked self.new ≡ linked self.old) }
        ensures room { OnOk result (room self.new ≡ room self.old) }
        ensures memory { IsTrue (linked self.old) → result ≢ Err refusal.Memory }
        ensures cost { IsTrue (linked self.old) → OnOk result (steps.new ≤ steps.old + 8) }
        ensures none { IsTrue (linked self.old) → interior ≡ false → steps.new ≡ steps.old }
        ensures refused { IsTrue (linked self.old) → OnErr result (steps.new ≤ steps.old + 4) };

    /// The tests at the end, in order: FaceCount where the faces built aren't as many as declared, at
    /// their number; VertexCount where more than `created` vertices were made, at their number;
    /// Degenerate where two corners of a face are one vertex, at the least such face (this project's
    /// choice). Memory where there is no room to distinguish the vertices. The table that is answered
    /// has entries for no more than the declared faces. A linked rebuilding labels the vertices once, which
    /// counts a step for each entry, three for each face for which there is room.
    fn finish(self, alloc: Global, steps: &mut Steps<L>) -> Result<Built, Refusal>
        requires live { IsTrue (live self) }
        requires all { (plan self).symbols ≤ (state self).built }
        requires none { length (state self).stack ≡ 0 }
        ensures ends { Ends (plan self) (state self) result }
        ensures room { IfOk result (λ b. length b.table.entries ≤ 3 * (plan self).faces) }
        ensures linked { IfOk result (λ b. b.linked ≡ linked self) }
        ensures cost { IsTrue (linked self) → steps.new ≤ steps.old + 3 * room self };
}
