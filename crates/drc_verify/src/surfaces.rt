//! The verdict on rows and glued pairs.

ghost use Rattle.std.specs.Prelude.{◌≡◌, ◌*◌, ◌<◌, ◌↔◌, true, length, IfOk};
ghost use Rattle.std.specs.Option.{option_map};
ghost use Rattle.drc_base.specs.Refusals.{Answers};
ghost use Rattle.corner_table.specs.Carried.{IsRenumbering};
ghost use Rattle.corner_table.specs.Sides.{IsGluing};
ghost use Rattle.corner_table.specs.Table.{gluing_of};
ghost use Rattle.pairing.specs.CarriedPairs.{carried};
ghost use Rattle.drc_container.specs.reading.Meaning.{surface_in, told_by};
ghost use Rattle.drc_verify.specs.Checked.{surface_asked, table_surface, has_position, mesh_asked, pairs_asked, text_pairs, with_pairs, glued_verdict, surface_verdict, IsSame, HasFaces};
ghost use Rattle.drc_verify.specs.SideTests.{first_other};
ghost use Rattle.drc_verify.specs.declared.verdicts.Verdict.TheVariants as verdict;

use crate::judging::judge_mesh;
use crate::sides::other_side;
use crate::verdicts::Verdict;
use attr_heads::Head;
use corner_table::{SideTable, Steps};
use drc_base::{Fault, Kind, Memory, Refusal};
use drc_container::{Decoded, carried_surface};
use eb_rebuild::Built;
use mesh_model::{CornerMesh, Geometry};
use pairing::pair;
use std::alloc::Global;
use std::marker::Brand;
use std::sync::ledger::{Blank, Ledger};

/// The table of a stream's surface; Choice where it has none.
fn table_asked(sides: Option<Built>) -> Result<SideTable, Refusal>
    ensures table { Answers table_surface (surface_asked (option_map surface_in sides)) result }
    ensures gluing { IfOk result (λ t. IsGluing t.faces (gluing_of t)) }
{
    match sides {
        None => Err(Refusal::Fault(Fault::new(Kind::Choice, 0))),
        Some(built) => {
            let table = built.into_table();
            // For the prover alone: the call says that the table is a surface.
            let _faces = table.face_count();
            Ok(table)
        }
    }
}

/// Whether the first attribute is a position.
fn has_position(heads: &[Head]) -> bool
    ensures { result ≡ has_position heads.now }
{
    match heads {
        [] => false,
        [head, ..] => head.usage == 0,
    }
}

/// The mesh of a text; NoPosition where it is a cloud, or its first attribute is no position.
fn mesh_asked(g: &Geometry) -> Result<&CornerMesh, Refusal>
    ensures { Answers (λ m. m.now) (mesh_asked g.now) result }
{
    if let Geometry::Mesh(mesh) = g
        && has_position(mesh.heads())
    {
        return Ok(mesh);
    }
    Err(Refusal::Fault(Fault::new(Kind::NoPosition, 0)))
}

/// The pairs of a mesh; Degenerate at the first face with two corners at one position.
fn pairs_asked(alloc: Global, m: &CornerMesh) -> Result<SideTable, Refusal>
    ensures pairs { Answers gluing_of (pairs_asked m.now) result }
    ensures faces { IfOk result (λ t. t.faces ≡ length m.now.faces) }
{
    pair(alloc, m)
}

/// An equal surface under a count of calls that nothing else takes part in. Where there is room for more faces,
/// it is the one that was.
fn counted_copy<L: Ledger>(
    alloc: Global,
    pairs: SideTable,
    blank: Blank,
) -> Result<SideTable, Memory>
    requires name { blank.name ≡ L.name }
    requires parts { blank.parts ≡ L.parts }
    requires some { 0 < L.parts }
    ensures { IfOk result (λ t. t ≡ pairs) }
{
    let faces = pairs.face_count();
    let mut steps = Steps::<L>::new(blank);
    let entries = pairs.across(&mut steps);
    if entries.len() != 3 * faces as usize {
        return Ok(pairs);
    }
    let copy = Vec::from_slice(alloc, entries)?;
    Ok(SideTable::with_pairs(faces, copy))
}

/// An equal surface. What finding the pairs makes last lies behind all that it held, and would part the room there;
/// the copy lies in front, so that decoding finds one piece of room.
fn packed(alloc: Global, pairs: SideTable) -> Result<SideTable, Memory>
    ensures { IfOk result (λ t. t ≡ pairs) }
{
    counted_copy::<Brand>(alloc, pairs, Blank::new(1))
}

/// The pairs of a text's mesh, or the fault of what is missing for them: NoPosition at 0 where the text is no mesh
/// with positions, and the mesh's own fault.
pub(crate) fn text_pairs(alloc: Global, g: &Geometry) -> Result<SideTable, Refusal>
    ensures pairs { Answers gluing_of (text_pairs g.now) result }
    ensures faces { IfOk result (λ t. IfOk (mesh_asked g.now) (λ m. t.faces ≡ length m.faces)) }
{
    let given = mesh_asked(g)?;
    let pairs = pairs_asked(alloc, given)?;
    let pairs = packed(alloc, pairs)?;
    Ok(pairs)
}

/// The verdict on pairs, where the rows are right. The old numbers' table is freed.
fn judge_pairs(
    alloc: Global,
    pairs: SideTable,
    rows: &[(u32, u8)],
    sides: &SideTable,
) -> Result<Verdict, Memory>
    requires { IsRenumbering pairs.faces rows.now }
    ensures { IfOk result (λ v. v ≡ with_pairs verdict.Same
        (first_other (3 * sides.now.faces) (gluing_of sides.now) (carried (gluing_of pairs) rows.now))) }
{
    let due = carried_surface(alloc, pairs, rows)?;
    match other_side(sides, &due) {
        None => Ok(Verdict::Same),
        Some(side) => Ok(Verdict::Pair(side)),
    }
}

/// The verdict on rows, and on pairs where all rows are right: only then do they give new numbers.
fn judge_glued(
    alloc: Global,
    cloud: bool,
    rows: &[(u32, u8)],
    m: &CornerMesh,
    n: &Geometry,
    pairs: SideTable,
    sides: &SideTable,
) -> Result<Verdict, Memory>
    requires { pairs.faces ≡ length m.now.faces }
    ensures { IfOk result (λ v. v ≡ glued_verdict cloud m.now n.now rows.now (gluing_of pairs) (table_surface sides.now)) }
{
    match judge_mesh(alloc, cloud, rows, m, n)? {
        Verdict::Same => judge_pairs(alloc, pairs, rows, sides),
        Verdict::Heads => Ok(Verdict::Heads),
        Verdict::Rows(count) => Ok(Verdict::Rows(count)),
        Verdict::Row(row) => Ok(Verdict::Row(row)),
        Verdict::Pair(side) => Ok(Verdict::Pair(side)),
    }
}

/// The verdict on rows and pairs, or what is missing: Choice at 0 where the stream has no surface, and then
/// what is missing for the pairs of the text's mesh.
#[tactic(auto, unfolding(crate::specs::Checked::surface_verdict))]
pub(crate) fn judge_surface(
    alloc: Global,
    cloud: bool,
    rows: &[(u32, u8)],
    g: &Geometry,
    pairs: Result<SideTable, Refusal>,
    n: Decoded,
) -> Result<Verdict, Refusal>
    requires pairs { Answers gluing_of (text_pairs g.now) pairs }
    requires faces { IfOk pairs (λ t. IfOk (mesh_asked g.now) (λ m. t.faces ≡ length m.faces)) }
    ensures verdict { Answers (λ v. v) (surface_verdict cloud rows.now g.now (told_by n)) result }
    ensures same { HasFaces (told_by n) → IfOk result (λ v. (v ≡ verdict.Same) ↔ IsSame true cloud rows.now g.now (told_by n)) }
{
    let Decoded {
        geometry,
        sides,
        info: _,
    } = n;
    let sides = table_asked(sides)?;
    let mesh = mesh_asked(g)?;
    let pairs = pairs?;
    let verdict = judge_glued(alloc, cloud, rows, mesh, &geometry, pairs, &sides)?;
    Ok(verdict)
}
