//! Rebuilding with rows in a plain list.
//!
//! The machine as the format describes it: each vertex has a name, an active side stands in a list
//! with the names of its ends, and an S writes one name over another in all triangles and rows. So
//! each call looks through the list. By the contract of `Rebuild` the other rebuilding, which is
//! fast, gives the same answers.

ghost use Rattle.std.specs.Prelude.{◌≡◌, not, ◌&&◌, Bool, false, IfOk, IfErr};
ghost use Rattle.drc_base.specs.declared.faults.Refusal.TheVariants as refusal;
ghost use Rattle.corner_table.specs.Sides.{side_at, same};
ghost use Rattle.eb_rebuild.specs.Linked.{refused_by};

use crate::active_rows::Row;
use crate::named_table::NamedTable;
use corner_table::{Event, SideTable, Steps, Symbol};
use drc_base::{Fault, Kind, Memory, Refusal};
use eb_machine::Beside;
use eb_rebuild::{Built, Rebuild, SideStack, Splits, waiting};
use std::alloc::Global;
use std::marker::Model;
use std::sync::ledger::Ledger;

/// Whether two sides are one, by their numbers.
fn is_one(a: u32, b: u32) -> bool
    ensures { result ≡ same (side_at a) (side_at b) }
{
    a == b
}

/// Whether sides b and c are two more than a, and row c starts where row a ends.
fn is_three(a: u32, b: u32, c: u32, round: bool) -> bool
    ensures { result ≡ (not (same (side_at b) (side_at a)) && not (same (side_at c) (side_at a)) && round) }
{
    !is_one(b, a) && !is_one(c, a) && round
}

/// A fault is a refusal.
fn refused(done: Result<(), Fault>) -> Result<(), Refusal>
    ensures { result ≡ refused_by done }
{
    match done {
        Ok(()) => Ok(()),
        Err(fault) => Err(Refusal::Fault(fault)),
    }
}

/// A rebuilding that keeps its rows in a list.
#[derive(Debug, Drop)]
pub struct RowRebuild {
    named: NamedTable,
    stack: SideStack,
    splits: Splits,
    faces: u32,
    created: u32,
    symbols: u32,
    closes: u32,
}

impl Model for RowRebuild {
    ghost use Rattle.eb_rebuild.specs.Linked.{IsLinkState};
    ghost use Rattle.eb_rows.specs.Rowed.{RowValue, plain_of};

    ghost Value = { RowValue };

    ghost view = { λ r. record {
      plan = record { faces = r.faces; created = r.created; symbols = r.symbols };
      named = r.named;
      stack = r.stack;
      splits = r.splits;
      closes = r.closes;
    } };

    ghost invariant = { λ r. IsLinkState (plain_of (record {
      plan = record { faces = r.faces; created = r.created; symbols = r.symbols };
      named = r.named;
      stack = r.stack;
      splits = r.splits;
      closes = r.closes;
    })) };
}

impl RowRebuild {
    ghost use Rattle.std.specs.Prelude.{ℕ, suc, ◌+◌, ◌*◌, ◌<◌, ◌≤◌, true, false, None, ◌∷◌, Ok, Err, map, length, IfOk, IfErr, OnOk};
    ghost use Rattle.corner_table.specs.declared.symbols.Symbol.TheVariants as kinds;
    ghost use Rattle.corner_table.specs.Table.{gluing_of, room_of};
    ghost use Rattle.eb_machine.specs.Machine.{top, step, close, fill, finish, pushed, release};
    ghost use Rattle.eb_machine.specs.Beside.{symbol_in};
    ghost use Rattle.eb_rebuild.specs.Kept.{kept_in};
    ghost use Rattle.eb_rebuild.specs.Linked.{state_of, Does};
    ghost use Rattle.eb_rows.specs.Rowed.{plain_of, Tries, IsRowIn, IsThree};

    /// Takes the top side off, which has to be a row.
    fn take_row(&mut self) -> Result<Row, Fault>
        ensures ok { IfOk result (λ a. (self.old.stack.sides ≡ a.side ∷ self.new.stack.sides) × IsRowIn self.old.named a) }
        ensures err { IfErr result (λ f. top self.old.named.table.faces (gluing_of self.old.named.table) (map side_at self.old.stack.sides) ≡ Err f) }
        ensures rest { self.new ≡ record self.old { stack = self.new.stack } }
    {
        match self.stack.pop() {
            None => Err(Fault::new(Kind::NoActive, u64::from(self.named.face_count()))),
            Some(a) => match self.named.row_of(a) {
                Some(row) => Ok(row),
                None => Err(Fault::new(Kind::Gone, u64::from(self.named.face_count()))),
            },
        }
    }

    /// The second side of an S: the one that an event keeps for it, else the top side. It has to be a
    /// row.
    fn take_second(&mut self) -> Result<Row, Fault>
        requires { self.old.named.table.faces < self.old.plan.symbols }
        ensures ok { IfOk result (λ a. (top self.old.named.table.faces (gluing_of self.old.named.table) (pushed (kept_in self.old.splits.kept self.old.named.table.faces) (map side_at self.old.stack.sides)) ≡ Ok (side_at a.side, map side_at self.new.stack.sides))
            × IsRowIn self.old.named a) }
        ensures err { IfErr result (λ f. top self.old.named.table.faces (gluing_of self.old.named.table) (pushed (kept_in self.old.splits.kept self.old.named.table.faces) (map side_at self.old.stack.sides)) ≡ Err f) }
        ensures kept { kept_in self.new.splits.kept ≡ release self.old.named.table.faces (kept_in self.old.splits.kept) }
        ensures events { self.new.splits.events ≡ self.old.splits.events }
        ensures rest { self.new ≡ record self.old { stack = self.new.stack; splits = self.new.splits } }
    {
        let number = self.named.face_count();
        match self.splits.take(number) {
            None => self.take_row(),
            Some(a) => match self.named.row_of(a) {
                Some(row) => Ok(row),
                None => Err(Fault::new(Kind::Gone, u64::from(number))),
            },
        }
    }

    /// E: three new vertices.
    fn take_end<L: Ledger>(&mut self, steps: &mut Steps<L>) -> Result<(), Refusal>
        requires more { self.old.named.table.faces < self.old.plan.symbols }
        requires room { self.old.named.table.faces < room_of self.old.named.table }
        ensures does { Tries (step self.old.plan.symbols kinds.E (state_of (plain_of self.old))) (state_of (plain_of self.new)) result }
        ensures plan { self.new.plan ≡ self.old.plan }
        ensures room { OnOk result (room_of self.new.named.table ≡ room_of self.old.named.table) }
    {
        let face = self.named.face_count();
        self.named.add_end(steps)?;
        self.stack.push(3 * face);
        refused(self.splits.note(face))
    }

    /// L and R: a new vertex at the left or at the right of the top side.
    fn take_beside<L: Ledger>(
        &mut self,
        beside: Beside,
        steps: &mut Steps<L>,
    ) -> Result<(), Refusal>
        requires more { self.old.named.table.faces < self.old.plan.symbols }
        requires room { self.old.named.table.faces < room_of self.old.named.table }
        ensures does { Tries (step self.old.plan.symbols (symbol_in beside) (state_of (plain_of self.old))) (state_of (plain_of self.new)) result }
        ensures plan { self.new.plan ≡ self.old.plan }
        ensures room { OnOk result (room_of self.new.named.table ≡ room_of self.old.named.table) }
    {
        // Not by `?` for the prover alone, who would have to follow how it converts the error.
        let a = match self.take_row() {
            Ok(a) => a,
            Err(fault) => return Err(Refusal::Fault(fault)),
        };
        let face = self.named.face_count();
        self.named.add_beside(beside, a, steps)?;
        self.stack.push(3 * face);
        refused(self.splits.note(face))
    }

    /// C: the new face closes the vertex at which the top row starts.
    fn take_tip<L: Ledger>(&mut self, steps: &mut Steps<L>) -> Result<(), Refusal>
        requires more { self.old.named.table.faces < self.old.plan.symbols }
        requires room { self.old.named.table.faces < room_of self.old.named.table }
        ensures does { Tries (step self.old.plan.symbols kinds.C (state_of (plain_of self.old))) (state_of (plain_of self.new)) result }
        ensures plan { self.new.plan ≡ self.old.plan }
        ensures room { OnOk result (room_of self.new.named.table ≡ room_of self.old.named.table) }
    {
        // Not by `?` for the prover alone, who would have to follow how it converts the error.
        let a = match self.take_row() {
            Ok(a) => a,
            Err(fault) => return Err(Refusal::Fault(fault)),
        };
        let before = self.named.row_before(a);
        let face = self.named.face_count();
        if is_one(before.side, a.side) {
            return Err(Refusal::Fault(Fault::new(Kind::Alone, u64::from(face))));
        }
        self.named.add_tip(a, before, steps)?;
        self.stack.push(3 * face);
        Ok(())
    }

    /// S: the vertex at which the top row starts becomes the one at which the second row ends.
    fn take_split<L: Ledger>(&mut self, steps: &mut Steps<L>) -> Result<(), Refusal>
        requires more { self.old.named.table.faces < self.old.plan.symbols }
        requires room { self.old.named.table.faces < room_of self.old.named.table }
        ensures does { Tries (step self.old.plan.symbols kinds.S (state_of (plain_of self.old))) (state_of (plain_of self.new)) result }
        ensures plan { self.new.plan ≡ self.old.plan }
        ensures room { OnOk result (room_of self.new.named.table ≡ room_of self.old.named.table) }
    {
        // Not by `?` for the prover alone, who would have to follow how it converts the error.
        let b = match self.take_row() {
            Ok(b) => b,
            Err(fault) => return Err(Refusal::Fault(fault)),
        };
        // Not by `?` for the prover alone, who would have to follow how it converts the error.
        let a = match self.take_second() {
            Ok(a) => a,
            Err(fault) => return Err(Refusal::Fault(fault)),
        };
        let face = self.named.face_count();
        if is_one(a.side, b.side) {
            return Err(Refusal::Fault(Fault::new(Kind::Gone, u64::from(face))));
        }
        if self.named.is_joined(b, a) {
            return Err(Refusal::Fault(Fault::new(Kind::SamePoint, u64::from(face))));
        }
        self.named.add_split(b, a, steps)?;
        self.stack.push(3 * face);
        Ok(())
    }

    /// Leaves the top side a boundary.
    fn close_boundary(&mut self)
        requires { 0 < length self.old.stack.sides }
        ensures does { close self.old.plan false (state_of (plain_of self.old)) ≡ Ok (state_of (plain_of self.new)) }
        ensures plan { self.new.plan ≡ self.old.plan }
        ensures room { room_of self.new.named.table ≡ room_of self.old.named.table }
    {
        match self.stack.pop() {
            None => (),
            Some(_) => self.closes += 1,
        }
    }

    /// Fills the loop of the top row with a face.
    fn close_interior<L: Ledger>(&mut self, steps: &mut Steps<L>) -> Result<(), Refusal>
        requires pending { 0 < length self.old.stack.sides }
        requires room { self.old.named.table.faces < self.old.plan.faces → self.old.named.table.faces < room_of self.old.named.table }
        ensures does { Tries (close self.old.plan true (state_of (plain_of self.old))) (state_of (plain_of self.new)) result }
        ensures plan { self.new.plan ≡ self.old.plan }
        ensures room { OnOk result (room_of self.new.named.table ≡ room_of self.old.named.table) }
    {
        let a = match self.stack.pop() {
            Some(a) => a,
            None => return Ok(()),
        };
        // Not by `?` for the prover alone, who would have to follow how it converts the error.
        let (top, second, third) = match self.rows_to_fill(a) {
            Ok(rows) => rows,
            Err(fault) => return Err(Refusal::Fault(fault)),
        };
        self.named.fill(top, second, third, steps)?;
        self.closes += 1;
        Ok(())
    }

    /// The three rows of the loop of a side, which a face may fill: Gone where the side is no row, Loop
    /// where its loop isn't of exactly three, FaceCount where all declared faces are built.
    fn rows_to_fill(&self, a: u32) -> Result<(Row, Row, Row), Fault>
        requires { a < 3 * self.now.named.table.faces }
        ensures top { IfOk result (λ rows. rows.0.side ≡ a) }
        ensures rows { IfOk result (λ rows. IsThree self.now.named rows.0 rows.1 rows.2) }
        ensures more { OnOk result (self.now.named.table.faces < self.now.plan.faces) }
        ensures err { IfErr result (λ f. fill (self.now.plan.symbols + self.now.closes) self.now.plan (side_at a) (map side_at self.now.stack.sides) (state_of (plain_of self.now)) ≡ Err f) }
    {
        let number = u64::from(self.symbols) + u64::from(self.closes);
        let top = match self.named.row_of(a) {
            Some(row) => row,
            None => return Err(Fault::new(Kind::Gone, number)),
        };
        let second = self.named.row_before(top);
        let third = self.named.row_before(second);
        let round = self.named.is_joined(third, top);
        if !is_three(top.side, second.side, third.side, round) {
            return Err(Fault::new(Kind::Loop, number));
        }
        let built = self.named.face_count();
        if built == self.faces {
            return Err(Fault::new(Kind::FaceCount, u64::from(built)));
        }
        Ok((top, second, third))
    }

    /// The tests at the end: FaceCount, then VertexCount, then Degenerate.
    fn tested(&self) -> Result<(), Fault>
        ensures { Does (finish self.now.plan (state_of (plain_of self.now))) (state_of (plain_of self.now)) result }
    {
        let built = self.named.face_count();
        if built != self.faces {
            return Err(Fault::new(Kind::FaceCount, u64::from(built)));
        }
        let made = self.named.made();
        if self.created < made {
            return Err(Fault::new(Kind::VertexCount, u64::from(made)));
        }
        match self.named.first_degenerate() {
            None => Ok(()),
            Some(face) => Err(Fault::new(Kind::Degenerate, u64::from(face))),
        }
    }

    /// The table; all else that is kept is freed. It has entries for no more than the declared faces.
    fn into_table(self) -> SideTable
        ensures table { result ≡ self.named.table }
        ensures room { length result.entries ≤ 3 * self.plan.faces }
    {
        // For the prover alone: there is room for no more faces than are declared.
        let _room = self.named.face_count();
        self.named.into_table()
    }
}

/// A finished table with the classes of its corners, which are labelled by walks. Memory alone is
/// refused.
fn labelled<L: Ledger>(
    alloc: Global,
    table: SideTable,
    steps: &mut Steps<L>,
) -> Result<Built, Refusal>
    ensures table { IfOk result (λ b. b.table ≡ table) }
    ensures linked { IfOk result (λ b. b.linked ≡ false) }
    ensures memory { IfErr result (λ e. e ≡ refusal.Memory) }
{
    let classes = table.label_vertices(alloc, steps)?;
    Ok(Built::without_links(table, classes))
}

impl<L: Ledger> Rebuild<L> for RowRebuild {
    ghost use Rattle.std.specs.Prelude.{true, false};
    ghost use Rattle.corner_table.specs.Table.{room_of};
    ghost use Rattle.eb_rebuild.specs.Linked.{state_of};
    ghost use Rattle.eb_rows.specs.Rowed.{plain_of};

    ghost plan = { λ r. r.plan };

    ghost state = { λ r. state_of (plain_of r) };

    ghost live = { λ _. true };

    ghost linked = { λ _. false };

    ghost has_degrees = { λ _. true };

    ghost room = { λ r. room_of r.named.table };

    fn new(
        alloc: Global,
        faces: u32,
        created: u32,
        symbols: u32,
        most: u32,
        events: Vec<Event>,
        degrees: bool,
    ) -> Result<RowRebuild, Memory> {
        let named = NamedTable::with_room(alloc, most)?;
        let (stack, splits) = waiting(alloc, symbols, most, events)?;
        Ok(RowRebuild {
            named,
            stack,
            splits,
            faces,
            created,
            symbols,
            closes: 0,
        })
    }

    fn symbol(&mut self, symbol: Symbol, steps: &mut Steps<L>) -> Result<(), Refusal> {
        match symbol {
            Symbol::C => self.take_tip(steps),
            Symbol::S => self.take_split(steps),
            Symbol::L => self.take_beside(Beside::Left, steps),
            Symbol::R => self.take_beside(Beside::Right, steps),
            Symbol::E => self.take_end(steps),
        }
    }

    fn degree(&self) -> u32 {
        match self.stack.top() {
            None => 0,
            Some(a) => self.named.degree_at(a),
        }
    }

    fn pending(&self) -> u32 {
        self.stack.len()
    }

    fn close(&mut self, interior: bool, steps: &mut Steps<L>) -> Result<(), Refusal> {
        if interior {
            self.close_interior(steps)
        } else {
            self.close_boundary();
            Ok(())
        }
    }

    fn finish(self, alloc: Global, steps: &mut Steps<L>) -> Result<Built, Refusal> {
        match self.tested() {
            Ok(()) => labelled(alloc, self.into_table(), steps),
            Err(fault) => Err(Refusal::Fault(fault)),
        }
    }
}
