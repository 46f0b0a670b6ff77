//! Rebuilding over the links of the boundary.
//!
//! The rules ask only which side comes before a free side round the boundary, and whether a side is
//! free; the table's links answer both at once. So a symbol takes a few table calls, whatever was
//! built before. Where the degrees of vertices will be asked for, they are kept at the free sides that start
//! there. Corners are named as faces are built, so that no fan is walked at the end.

ghost use Rattle.std.specs.Prelude.{◌≡◌, ◌+◌, ◌*◌, ◌≤◌, not, ◌&&◌, true, [], length, IfOk, IsTrue};
ghost use Rattle.drc_base.specs.declared.limits.TheConstants.{MAX_FACES as most_faces};
ghost use Rattle.corner_table.specs.Sides.{same};
ghost use Rattle.corner_table.specs.Table.{side_of, gluing_of, room_of};
ghost use Rattle.eb_rebuild.specs.CornerNames.{IsNaming};

use crate::built::Built;
use crate::corner_names::CornerNames;
use crate::kept_degrees::KeptDegrees;
use crate::rebuild::Rebuild;
use crate::side_stack::SideStack;
use crate::splits::{Splits, waiting};
use corner_table::{Event, LinkedTable, SideTable, Steps, Symbol, number_of, side_with};
use drc_base::{Fault, Kind, Memory, Refusal, Side};
use eb_machine::Beside;
use std::alloc::Global;
use std::marker::Model;
use std::sync::ledger::Ledger;

/// Whether two sides are one.
fn is_same(a: Side, b: Side) -> bool
    ensures { result ≡ same (side_of a) (side_of b) }
{
    a.face == b.face && a.k == b.k
}

/// Whether b and c, which come before a round the boundary, are two more sides, and d, which comes
/// before these, is a again: a loop of exactly three.
fn is_loop(a: Side, b: Side, c: Side, d: Side) -> bool
    ensures { result ≡ (not (same (side_of b) (side_of a)) && not (same (side_of c) (side_of a)) && same (side_of d) (side_of a)) }
{
    !is_same(b, a) && !is_same(c, a) && is_same(d, a)
}

/// The table of a rebuilding and the names of its corners; all else that it keeps is freed. The table
/// has entries for no more than the declared faces.
fn finished_parts<L: Ledger>(rebuild: LinkRebuild<L>) -> (SideTable, CornerNames)
    ensures table { result.0 ≡ rebuild.table }
    ensures naming { IsNaming rebuild.table.faces (gluing_of rebuild.table) result.1 }
    ensures made { length result.1.up ≡ rebuild.made }
    ensures entries { length rebuild.table.entries ≡ 3 * room_of rebuild.table }
    ensures within { room_of rebuild.table ≤ rebuild.plan.faces }
{
    // For the prover alone: there is room for no more faces than are declared.
    let _room = rebuild.table.face_count();
    (rebuild.table.into_sides(), rebuild.names)
}

/// A finished table with the classes of its corners by their names, of which `made` were made. It is
/// labelled once.
fn classed<L: Ledger>(
    alloc: Global,
    table: SideTable,
    names: CornerNames,
    made: u32,
    steps: &mut Steps<L>,
) -> Result<Built, Memory>
    requires made { length names.up ≡ made }
    requires naming { IsNaming table.faces (gluing_of table) names }
    ensures table { IfOk result (λ b. b.table ≡ table) }
    ensures linked { IfOk result (λ b. b.linked ≡ true) }
    ensures cost { steps.new ≡ steps.old + length table.entries }
{
    let faces = table.face_count();
    let across = table.across(steps);
    let classes = names.into_classes(alloc, across, faces, made)?;
    Ok(Built::by_links(table, classes))
}

/// No degree and no name is kept yet, with room for those of `most` faces, of degrees if they will be
/// asked for.
fn noted_parts(
    alloc: Global,
    most: u32,
    degrees: bool,
) -> Result<(KeptDegrees, CornerNames), Memory>
    requires { most ≤ most_faces }
    ensures degrees { IfOk result (λ p. p.0.list ≡ []) }
    ensures kept { IfOk result (λ p. p.0.kept ≡ degrees) }
    ensures room { IfOk result (λ p. IsTrue degrees → 3 * most ≤ p.0.room) }
    ensures names { IfOk result (λ p. p.1.names ≡ []) }
    ensures none { IfOk result (λ p. p.1.up ≡ []) }
    ensures names_room { IfOk result (λ p. p.1.room ≡ 3 * most) }
{
    let degrees = KeptDegrees::none(alloc, most, degrees)?;
    let names = CornerNames::with_room(alloc, most)?;
    Ok((degrees, names))
}

/// A rebuilding that keeps the boundary by links.
#[derive(Debug, Drop)]
pub struct LinkRebuild<L: Ledger> {
    table: LinkedTable<L>,
    stack: SideStack,
    splits: Splits,
    degrees: KeptDegrees,
    names: CornerNames,
    faces: u32,
    created: u32,
    symbols: u32,
    made: u32,
    closes: u32,
}

impl<L: Ledger> Model for LinkRebuild<L> {
    ghost use Rattle.std.specs.Prelude.{◌≡◌, IsTrue};
    ghost use Rattle.eb_rebuild.specs.CornerNames.{KeepsNames};
    ghost use Rattle.eb_rebuild.specs.KeptDegrees.{KeepsList};
    ghost use Rattle.eb_rebuild.specs.Linked.{LinkValue, IsLinkState};

    ghost Value = { LinkValue };

    ghost view = { λ r. record {
      plan = record { faces = r.faces; created = r.created; symbols = r.symbols };
      table = r.table;
      stack = r.stack;
      splits = r.splits;
      made = r.made;
      closes = r.closes;
      has_degrees = r.degrees.kept;
    } };

    ghost invariant = { λ r. IsLinkState (record {
      plan = record { faces = r.faces; created = r.created; symbols = r.symbols };
      table = r.table;
      stack = r.stack;
      splits = r.splits;
      made = r.made;
      closes = r.closes;
      has_degrees = r.degrees.kept;
    }) × (IsTrue r.degrees.kept → r.closes ≡ 0 → KeepsList r.table r.made r.degrees)
        × KeepsNames r.table r.made r.names };
}

impl<L: Ledger> LinkRebuild<L> {
    ghost use Rattle.std.specs.Prelude.{◌≡◌, ◌≢◌, ℕ, suc, ◌+◌, ◌*◌, ◌<◌, ◌≤◌, true, false, None, [], ◌∷◌, Ok, Err, map, length, IsTrue, IfOk, IfErr, OnOk, OnErr};
    ghost use Rattle.drc_base.specs.declared.limits.TheConstants.{MAX_FACES as most_faces};
    ghost use Rattle.corner_table.specs.declared.symbols.Symbol.TheVariants as kinds;
    ghost use Rattle.corner_table.specs.Sides.{side, side_at, second, third, glue};
    ghost use Rattle.corner_table.specs.Table.{gluing_of, room_of, IsFreeIn};
    ghost use Rattle.eb_machine.specs.Machine.{top, step, close, fill, finish, pushed, release};
    ghost use Rattle.eb_machine.specs.Beside.{symbol_in};
    ghost use Rattle.eb_rebuild.specs.Kept.{kept_in};
    ghost use Rattle.eb_rebuild.specs.Linked.{state_of, is_live, Does, IsLoopOf};
    ghost use Rattle.eb_rebuild.specs.Rebuilding.{Holds, Ends};

    /// Takes the top side off, which has to be free.
    #[inline(always)]
    fn take_side(&mut self, steps: &mut Steps<L>) -> Result<u32, Fault>
        ensures ok { IfOk result (λ a. (self.old.stack.sides ≡ a ∷ self.new.stack.sides) × (gluing_of self.old.table (side_at a) ≡ None) × (a < 3 * self.old.table.faces)) }
        ensures err { IfErr result (λ f. top self.old.table.faces (gluing_of self.old.table) (map side_at self.old.stack.sides) ≡ Err f) }
        ensures rest { self.new ≡ record self.old { stack = self.new.stack } }
        ensures cost { steps.new ≤ steps.old + 1 }
    {
        match self.stack.pop() {
            None => Err(Fault::new(Kind::NoActive, u64::from(self.table.face_count()))),
            Some(a) => match self.table.other(side_with(a), steps) {
                None => Ok(a),
                Some(_) => Err(Fault::new(Kind::Gone, u64::from(self.table.face_count()))),
            },
        }
    }

    /// E: a new face, no side of which is glued.
    #[inline(always)]
    fn take_end(&mut self, steps: &mut Steps<L>) -> Result<(), Fault>
        requires more { self.old.table.faces < self.old.plan.symbols }
        requires room { self.old.table.faces < room_of self.old.table }
        requires unclosed { self.old.closes ≡ 0 }
        ensures does { Does (step self.old.plan.symbols kinds.E (state_of self.old)) (state_of self.new) result }
        ensures plan { self.new.plan ≡ self.old.plan }
        ensures room { OnOk result (room_of self.new.table ≡ room_of self.old.table) }
        ensures degrees { OnOk result (self.new.has_degrees ≡ self.old.has_degrees) }
        ensures live { OnOk result (IsTrue (is_live self.new)) }
        ensures cost { steps.new ≤ steps.old + 1 }
    {
        let face = self.table.add_face(steps);
        self.degrees.note_end(face);
        self.names.add_end(self.made);
        self.stack.push(3 * face);
        self.made += 3;
        self.splits.note(face)
    }

    /// L and R: side 1 or side 2 of the new face is glued to the top side.
    #[inline(always)]
    fn take_beside(&mut self, beside: Beside, steps: &mut Steps<L>) -> Result<(), Fault>
        requires more { self.old.table.faces < self.old.plan.symbols }
        requires room { self.old.table.faces < room_of self.old.table }
        requires unclosed { self.old.closes ≡ 0 }
        ensures does { Does (step self.old.plan.symbols (symbol_in beside) (state_of self.old)) (state_of self.new) result }
        ensures plan { self.new.plan ≡ self.old.plan }
        ensures room { OnOk result (room_of self.new.table ≡ room_of self.old.table) }
        ensures degrees { OnOk result (self.new.has_degrees ≡ self.old.has_degrees) }
        ensures live { OnOk result (IsTrue (is_live self.new)) }
        ensures cost { steps.new ≤ steps.old + 4 }
    {
        // Not by `?` for the prover alone, who would have to follow how it converts the error.
        let a = match self.take_side(steps) {
            Ok(a) => a,
            Err(fault) => return Err(fault),
        };
        let top = side_with(a);
        self.degrees.note_beside(&self.table, beside, a, steps);
        let k = beside.glued();
        let face = self.table.add_beside(k, top, steps);
        self.names.add_beside(beside, a, self.made);
        self.stack.push(3 * face);
        self.made += 1;
        self.splits.note(face)
    }

    /// C: the new face closes the vertex at which the top side starts. Its side 1 is glued to the top
    /// side, its side 2 to the free side before that.
    #[inline(always)]
    fn take_tip(&mut self, steps: &mut Steps<L>) -> Result<(), Fault>
        requires more { self.old.table.faces < self.old.plan.symbols }
        requires room { self.old.table.faces < room_of self.old.table }
        requires unclosed { self.old.closes ≡ 0 }
        ensures does { Does (step self.old.plan.symbols kinds.C (state_of self.old)) (state_of self.new) result }
        ensures plan { self.new.plan ≡ self.old.plan }
        ensures room { OnOk result (room_of self.new.table ≡ room_of self.old.table) }
        ensures degrees { OnOk result (self.new.has_degrees ≡ self.old.has_degrees) }
        ensures live { OnOk result (IsTrue (is_live self.new)) }
        ensures cost { steps.new ≤ steps.old + 6 }
        ensures refused { OnErr result (steps.new ≤ steps.old + 2) }
    {
        // Not by `?` for the prover alone, who would have to follow how it converts the error.
        let a = match self.take_side(steps) {
            Ok(a) => a,
            Err(fault) => return Err(fault),
        };
        let top = side_with(a);
        let before = self.table.prev_open(top, steps);
        if is_same(before, top) {
            return Err(Fault::new(Kind::Alone, u64::from(self.table.face_count())));
        }
        let tip = number_of(before);
        self.degrees.note_tip(&self.table, a, tip, steps);
        let face = self.table.add_tip(top, before, steps);
        self.names.add_tip(a, tip);
        self.stack.push(3 * face);
        Ok(())
    }

    /// The second side of an S: the one that an event keeps for it, else the top side. It has to be
    /// free.
    #[inline(always)]
    fn take_second(&mut self, steps: &mut Steps<L>) -> Result<u32, Fault>
        requires { self.old.table.faces < self.old.plan.symbols }
        ensures ok { IfOk result (λ a. (top self.old.table.faces (gluing_of self.old.table) (pushed (kept_in self.old.splits.kept self.old.table.faces) (map side_at self.old.stack.sides)) ≡ Ok (side_at a, map side_at self.new.stack.sides))
            × (gluing_of self.old.table (side_at a) ≡ None) × (a < 3 * self.old.table.faces)) }
        ensures err { IfErr result (λ f. top self.old.table.faces (gluing_of self.old.table) (pushed (kept_in self.old.splits.kept self.old.table.faces) (map side_at self.old.stack.sides)) ≡ Err f) }
        ensures kept { kept_in self.new.splits.kept ≡ release self.old.table.faces (kept_in self.old.splits.kept) }
        ensures events { self.new.splits.events ≡ self.old.splits.events }
        ensures rest { self.new ≡ record self.old { stack = self.new.stack; splits = self.new.splits } }
        ensures cost { steps.new ≤ steps.old + 1 }
    {
        let number = self.table.face_count();
        match self.splits.take(number) {
            None => self.take_side(steps),
            Some(a) => match self.table.other(side_with(a), steps) {
                None => Ok(a),
                Some(_) => Err(Fault::new(Kind::Gone, u64::from(number))),
            },
        }
    }

    /// S: the new face joins the top side and the second side. Its side 1 is glued to the top side, its
    /// side 2 to the second.
    #[inline(always)]
    fn take_split(&mut self, steps: &mut Steps<L>) -> Result<(), Fault>
        requires more { self.old.table.faces < self.old.plan.symbols }
        requires room { self.old.table.faces < room_of self.old.table }
        requires unclosed { self.old.closes ≡ 0 }
        ensures does { Does (step self.old.plan.symbols kinds.S (state_of self.old)) (state_of self.new) result }
        ensures plan { self.new.plan ≡ self.old.plan }
        ensures room { OnOk result (room_of self.new.table ≡ room_of self.old.table) }
        ensures degrees { OnOk result (self.new.has_degrees ≡ self.old.has_degrees) }
        ensures live { OnOk result (IsTrue (is_live self.new)) }
        ensures cost { steps.new ≤ steps.old + 8 }
        ensures refused { OnErr result (steps.new ≤ steps.old + 3) }
    {
        // Not by `?` for the prover alone, who would have to follow how it converts the error.
        let b = match self.take_side(steps) {
            Ok(b) => b,
            Err(fault) => return Err(fault),
        };
        // Not by `?` for the prover alone, who would have to follow how it converts the error.
        let a = match self.take_second(steps) {
            Ok(a) => a,
            Err(fault) => return Err(fault),
        };
        let top = side_with(b);
        let second = side_with(a);
        if is_same(second, top) {
            return Err(Fault::new(Kind::Gone, u64::from(self.table.face_count())));
        }
        let before = self.table.prev_open(top, steps);
        if is_same(before, second) {
            return Err(Fault::new(Kind::SamePoint, u64::from(self.table.face_count())));
        }
        self.build_split(b, a, steps);
        Ok(())
    }

    /// Builds the face of an S: its side 1 is glued to the free side b, its side 2 to the free side a.
    #[inline(always)]
    fn build_split(&mut self, b: u32, a: u32, steps: &mut Steps<L>)
        requires more { self.old.table.faces < self.old.plan.symbols }
        requires room { self.old.table.faces < room_of self.old.table }
        requires unclosed { self.old.closes ≡ 0 }
        requires first { IsFreeIn self.old.table (side_at b) }
        requires second { IsFreeIn self.old.table (side_at a) }
        requires apart { side_at b ≢ side_at a }
        ensures faces { self.new.table.faces ≡ suc self.old.table.faces }
        ensures glued { gluing_of self.new.table ≡ glue (side self.old.table.faces second) (side_at b) (glue (side self.old.table.faces third) (side_at a) (gluing_of self.old.table)) }
        ensures room { room_of self.new.table ≡ room_of self.old.table }
        ensures stack { self.new.stack.sides ≡ (3 * self.old.table.faces) ∷ self.old.stack.sides }
        ensures rest { self.new ≡ record self.old { table = self.new.table; stack = self.new.stack } }
        ensures live { IsTrue (is_live self.new) }
        ensures cost { steps.new ≤ steps.old + 5 }
    {
        let top = side_with(b);
        let second = side_with(a);
        self.degrees.note_split(&self.table, b, a, steps);
        let face = self.table.add_face(steps);
        self.table.glue(Side { face, k: 2 }, second, steps);
        self.table.glue(Side { face, k: 1 }, top, steps);
        self.names.add_split(b, a);
        self.stack.push(3 * face);
    }

    /// Leaves the top side a boundary.
    fn close_boundary(&mut self)
        requires { 0 < length self.old.stack.sides }
        ensures does { close self.old.plan false (state_of self.old) ≡ Ok (state_of self.new) }
        ensures plan { self.new.plan ≡ self.old.plan }
        ensures room { room_of self.new.table ≡ room_of self.old.table }
        ensures live { IsTrue (is_live self.new) }
    {
        match self.stack.pop() {
            None => (),
            Some(_) => self.closes += 1,
        }
    }

    /// Fills the loop of the top side with a face.
    fn close_interior(&mut self, steps: &mut Steps<L>) -> Result<(), Fault>
        requires pending { 0 < length self.old.stack.sides }
        requires room { self.old.table.faces < self.old.plan.faces → self.old.table.faces < room_of self.old.table }
        ensures does { Does (close self.old.plan true (state_of self.old)) (state_of self.new) result }
        ensures plan { self.new.plan ≡ self.old.plan }
        ensures room { OnOk result (room_of self.new.table ≡ room_of self.old.table) }
        ensures live { OnOk result (IsTrue (is_live self.new)) }
        ensures cost { steps.new ≤ steps.old + 8 }
        ensures refused { OnErr result (steps.new ≤ steps.old + 4) }
    {
        let a = match self.stack.pop() {
            Some(a) => a,
            None => return Ok(()),
        };
        // Not by `?` for the prover alone, who would have to follow how it converts the error.
        let (second, third) = match self.sides_to_fill(a, steps) {
            Ok(sides) => sides,
            Err(fault) => return Err(fault),
        };
        let top = side_with(a);
        let face = self.table.add_face(steps);
        self.table.glue(Side { face, k: 0 }, top, steps);
        self.table.glue(Side { face, k: 1 }, second, steps);
        self.table.glue(Side { face, k: 2 }, third, steps);
        self.names.fill(a, number_of(second));
        self.closes += 1;
        Ok(())
    }

    /// The sides of the loop of side a, which a face may fill: the one that comes before a, and the one
    /// before that. Gone where side a is glued, Loop where its loop isn't of exactly three, FaceCount where
    /// all declared faces are built.
    fn sides_to_fill(&self, a: u32, steps: &mut Steps<L>) -> Result<(Side, Side), Fault>
        requires { a < 3 * self.now.table.faces }
        ensures sides { IfOk result (λ sides. IsLoopOf self.now.table (side_at a) (side_of sides.0) (side_of sides.1)) }
        ensures more { OnOk result (self.now.table.faces < self.now.plan.faces) }
        ensures err { IfErr result (λ f. fill (self.now.plan.symbols + self.now.closes) self.now.plan (side_at a) (map side_at self.now.stack.sides) (state_of self.now) ≡ Err f) }
        ensures cost { steps.new ≤ steps.old + 4 }
    {
        let number = u64::from(self.symbols) + u64::from(self.closes);
        let top = side_with(a);
        match self.table.other(top, steps) {
            None => (),
            Some(_) => {
                return Err(Fault::new(Kind::Gone, number));
            }
        }
        let second = self.table.prev_open(top, steps);
        let third = self.table.prev_open(second, steps);
        let last = self.table.prev_open(third, steps);
        if !is_loop(top, second, third, last) {
            return Err(Fault::new(Kind::Loop, number));
        }
        let built = self.table.face_count();
        if built == self.faces {
            return Err(Fault::new(Kind::FaceCount, u64::from(built)));
        }
        Ok((second, third))
    }

    /// The tests of the counts at the end: FaceCount, then VertexCount.
    fn counted(&self) -> Result<(), Fault>
        ensures faces { OnOk result (self.now.table.faces ≡ self.now.plan.faces) }
        ensures made { OnOk result (self.now.made ≤ self.now.plan.created) }
        ensures err { IfErr result (λ f. finish self.now.plan (state_of self.now) ≡ Err f) }
    {
        let count = self.table.face_count();
        if count != self.faces {
            return Err(Fault::new(Kind::FaceCount, u64::from(count)));
        }
        if self.created < self.made {
            return Err(Fault::new(Kind::VertexCount, u64::from(self.made)));
        }
        Ok(())
    }

    /// The finished table with the classes of its corners, where the counts are right; Degenerate where
    /// two corners of a face are one vertex.
    fn into_built(self, alloc: Global, steps: &mut Steps<L>) -> Result<Built, Refusal>
        requires faces { self.table.faces ≡ self.plan.faces }
        requires made { self.made ≤ self.plan.created }
        ensures ends { Ends self.plan (state_of self) result }
        ensures room { IfOk result (λ b. length b.table.entries ≤ 3 * self.plan.faces) }
        ensures linked { IfOk result (λ b. b.linked ≡ true) }
        ensures cost { steps.new ≤ steps.old + 3 * room_of self.table }
    {
        let made = self.made;
        let (table, names) = finished_parts(self);
        let built = classed(alloc, table, names, made, steps)?;
        match built.first_degenerate() {
            None => Ok(built),
            Some(face) => Err(Refusal::Fault(Fault::new(Kind::Degenerate, u64::from(face)))),
        }
    }
}

impl<L: Ledger> Rebuild<L> for LinkRebuild<L> {
    ghost use Rattle.std.specs.Prelude.{true};
    ghost use Rattle.corner_table.specs.Table.{room_of};
    ghost use Rattle.eb_rebuild.specs.Linked.{state_of, is_live};

    ghost plan = { λ r. r.plan };

    ghost state = { λ r. state_of r };

    ghost live = { λ r. is_live r };

    ghost linked = { λ _. true };

    ghost has_degrees = { λ r. r.has_degrees };

    ghost room = { λ r. room_of r.table };

    fn new(
        alloc: Global,
        faces: u32,
        created: u32,
        symbols: u32,
        most: u32,
        events: Vec<Event>,
        degrees: bool,
    ) -> Result<LinkRebuild<L>, Memory> {
        let table = LinkedTable::with_room(alloc, most)?;
        let (stack, splits) = waiting(alloc, symbols, most, events)?;
        let (degrees, names) = noted_parts(alloc, most, degrees)?;
        Ok(LinkRebuild {
            table,
            stack,
            splits,
            degrees,
            names,
            faces,
            created,
            symbols,
            made: 0,
            closes: 0,
        })
    }

    #[tactic(auto, using(crate::proofs::TableDegrees::moves_of))]
    #[inline(always)]
    fn symbol(&mut self, symbol: Symbol, steps: &mut Steps<L>) -> Result<(), Refusal> {
        let taken = match symbol {
            Symbol::C => self.take_tip(steps),
            Symbol::S => self.take_split(steps),
            Symbol::L => self.take_beside(Beside::Left, steps),
            Symbol::R => self.take_beside(Beside::Right, steps),
            Symbol::E => self.take_end(steps),
        };
        match taken {
            Ok(()) => Ok(()),
            Err(fault) => Err(Refusal::Fault(fault)),
        }
    }

    fn degree(&self) -> u32 {
        // For the prover alone: there are few faces.
        let _room = self.table.face_count();
        match self.stack.top() {
            None => 0,
            Some(a) => self.degrees.at(a),
        }
    }

    fn pending(&self) -> u32 {
        self.stack.len()
    }

    #[tactic(auto, using(crate::proofs::TableDegrees::moves_of))]
    fn close(&mut self, interior: bool, steps: &mut Steps<L>) -> Result<(), Refusal> {
        if !interior {
            self.close_boundary();
            return Ok(());
        }
        match self.close_interior(steps) {
            Ok(()) => Ok(()),
            Err(fault) => Err(Refusal::Fault(fault)),
        }
    }

    fn finish(self, alloc: Global, steps: &mut Steps<L>) -> Result<Built, Refusal> {
        match self.counted() {
            Ok(()) => self.into_built(alloc, steps),
            Err(fault) => Err(Refusal::Fault(fault)),
        }
    }
}
