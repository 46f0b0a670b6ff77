//! The seams of a mesh's attributes, as they are written and as surfaces are cut at them.

ghost use Rattle.std.specs.Prelude.{◌≡◌, ◌<◌, ◌≤◌, ◌^◌, [], ◌∷◌, ◌++◌, None, map, length, All, IfOk, OnOk};
ghost use Rattle.std.specs.Option.{option_map};
ghost use Rattle.std.specs.List.{list_any};
ghost use Rattle.drc_base.specs.declared.limits.TheConstants.{MAX_ATTRIBUTES};
ghost use Rattle.corner_table.specs.Carried.{IsRenumbering};
ghost use Rattle.mesh_model.specs.Renumbering.{renumbered};
ghost use Rattle.drc_container.specs.writing.WrittenOnSurface.{seam_bits_of, seam_lists};
ghost use Rattle.drc_container.specs.surface.AttributeSurfaces.{glued_by, corner_flags_of, flag_lists};

use crate::surface::turned_meshes::TurnedMesh;
use corner_table::SideTable;
use drc_base::Memory;
use mesh_model::CornerMesh;
use seams::{seam_bits, seams_of};
use std::alloc::Global;

/// The seams of an attribute.
#[derive(Debug, Drop)]
struct Seams {
    /// The seam bits.
    bits: Vec<bool>,
    /// Of each side whether it is a seam, where any pair is one.
    flags: Option<Vec<bool>>,
}

/// The seams of a mesh's attributes.
#[derive(Debug, Drop)]
pub struct SeamLists {
    /// The seam bits of each attribute but the first.
    pub bits: Vec<Vec<bool>>,
    /// For each attribute of each side whether it is a seam, where any pair is one.
    pub flags: Vec<Option<Vec<bool>>>,
}

/// Whether any of the bits says that there is a seam.
fn has_seam(bits: &[bool]) -> bool
    ensures { result ≡ list_any (λ bit. bit) bits.now }
{
    bits.iter().any(|bit| *bit)
}

/// The seams of an attribute.
fn seams_at(alloc: Global, mesh: &CornerMesh, sides: &SideTable, attr: u8) -> Result<Seams, Memory>
    requires later { 0 < attr }
    requires attribute { attr < length mesh.now.heads }
    requires faces { sides.now.faces ≡ length mesh.now.faces }
    ensures bits { IfOk result (λ s. s.bits.items ≡ seam_bits_of (glued_by mesh.now sides.now) attr) }
    ensures flags { IfOk result (λ s. option_map (λ v. v.items) s.flags ≡ corner_flags_of (glued_by mesh.now sides.now) attr) }
{
    // For the prover alone: the call states that the table is a surface.
    let _faces = sides.face_count();
    let flags = seams_of(alloc, mesh, sides, attr)?;
    let bits = seam_bits(alloc, sides, flags.as_slice())?;
    if !has_seam(bits.as_slice()) {
        return Ok(Seams { bits, flags: None });
    }
    Ok(Seams {
        bits,
        flags: Some(flags),
    })
}

/// The seams of a mesh's attributes on its surface. The first attribute has none.
fn seams_on(alloc: Global, mesh: &CornerMesh, sides: &SideTable) -> Result<SeamLists, Memory>
    requires { sides.now.faces ≡ length mesh.now.faces }
    ensures bits { IfOk result (λ s. map (λ v. v.items) s.bits.items ≡ seam_lists (glued_by mesh.now sides.now)) }
    ensures flags { IfOk result (λ s. map (option_map (λ v. v.items)) s.flags.items ≡ flag_lists (glued_by mesh.now sides.now)) }
    ensures few { IfOk result (λ s. length s.bits.items ≤ MAX_ATTRIBUTES) }
    ensures short { IfOk result (λ s. All (λ v. length v.items < 2 ^ 31) s.bits.items) }
{
    let mut lists = no_seams(alloc)?;
    for attr in 1..mesh.heads().len() as u8 {
        let seams = seams_at(alloc, mesh, sides, attr)?;
        add_seams(&mut lists, seams)?;
    }
    Ok(lists)
}

/// Adds the seams of one attribute more behind those of the attributes before.
fn add_seams(lists: &mut SeamLists, seams: Seams) -> Result<(), Memory>
    ensures bits { OnOk result (lists.new.bits.items ≡ lists.old.bits.items ++ seams.bits ∷ []) }
    ensures flags { OnOk result (lists.new.flags.items ≡ lists.old.flags.items ++ seams.flags ∷ []) }
{
    let Seams { bits, flags } = seams;
    lists.bits.push(bits)?;
    lists.flags.push(flags)?;
    Ok(())
}

/// The seams of a mesh with one attribute, which has none.
fn no_seams(alloc: Global) -> Result<SeamLists, Memory>
    ensures bits { IfOk result (λ s. s.bits.items ≡ []) }
    ensures flags { IfOk result (λ s. s.flags.items ≡ None ∷ []) }
{
    let mut flags = Vec::new(alloc);
    flags.push(None)?;
    Ok(SeamLists {
        bits: Vec::new(alloc),
        flags,
    })
}

/// The seams of a mesh on its surface, as it is decoded. Where there is more than one attribute, the mesh in this
/// order is made for them alone.
pub fn seams_in(
    alloc: Global,
    mesh: &CornerMesh,
    rows: &[(u32, u8)],
    sides: &SideTable,
) -> Result<SeamLists, Memory>
    requires rows { IsRenumbering (length mesh.now.faces) rows.now }
    requires faces { sides.now.faces ≡ length mesh.now.faces }
    ensures bits { IfOk result (λ s. map (λ v. v.items) s.bits.items ≡ seam_lists (glued_by (renumbered mesh.now rows.now) sides.now)) }
    ensures flags { IfOk result (λ s. map (option_map (λ v. v.items)) s.flags.items ≡ flag_lists (glued_by (renumbered mesh.now rows.now) sides.now)) }
    ensures few { IfOk result (λ s. length s.bits.items ≤ MAX_ATTRIBUTES) }
    ensures short { IfOk result (λ s. All (λ v. length v.items < 2 ^ 31) s.bits.items) }
{
    if mesh.heads().len() == 1 {
        return no_seams(alloc);
    }
    let decoded = TurnedMesh::new(mesh, rows).copied(alloc)?;
    let seams = seams_on(alloc, &decoded, sides)?;
    Ok(seams)
}
