//! The surfaces that the values of a mesh's attributes stand on: the mesh's own, put in order once, and for
//! each attribute with seams a surface that is cut at them.

ghost use Rattle.std.specs.Prelude.{◌≡◌, ◌<◌, Bool, false, map, length, All, IfOk, IfSome};
ghost use Rattle.std.specs.Option.{option_map};
ghost use Rattle.corner_table.specs.Table.{gluing_of};
ghost use Rattle.seams.specs.Seams.{AreFlags};
ghost use Rattle.drc_container.specs.reading.OnSurface.{ordered_by};
ghost use Rattle.drc_container.specs.writing.WrittenOnSurface.{is_cornered};
ghost use Rattle.drc_container.specs.surface.AttributeSurfaces.{glued_by, glued_on, flag_lists, order_in, order_at, order_cut, AreAttributeSurfaces};

use crate::surface::ordered_surface::OrderedSurface;
use crate::surface::ordering::order_over;
use crate::surface::turned_meshes::TurnedMesh;
use corner_table::SideTable;
use drc_base::Memory;
use seams::{classes, unseamed};
use std::alloc::Global;

/// A mesh as it is decoded, and for each of its attributes the surface that the values stand on.
#[derive(Drop)]
pub struct AttributeSurfaces<'m> {
    /// The mesh.
    pub mesh: TurnedMesh<'m>,
    /// The surface of the mesh, for the attributes without seams.
    pub whole: OrderedSurface,
    /// For each attribute the surface that is cut at its seams, where it has any.
    pub cut: Vec<Option<OrderedSurface>>,
}

/// A surface, ordered by prediction degree or depth first.
fn surface_in_order(alloc: Global, sides: SideTable, degree: bool) -> Result<OrderedSurface, Memory>
    ensures sides { IfOk result (λ s. s.sides ≡ sides) }
    ensures order { IfOk result (λ s. order_in s ≡ ordered_by degree sides.faces (gluing_of sides)) }
{
    // For the prover alone: the call states that the table is a surface.
    let _faces = sides.face_count();
    let classes = classes(alloc, &sides, None)?;
    let order = order_over(alloc, &sides, &classes, degree)?;
    Ok(OrderedSurface {
        sides,
        classes,
        order,
    })
}

/// A surface cut at its seams, ordered depth first, where there are any.
fn cut_surface(
    alloc: Global,
    sides: &SideTable,
    flags: Option<Vec<bool>>,
) -> Result<Option<OrderedSurface>, Memory>
    requires { IfSome flags (λ v. AreFlags sides.now.faces (gluing_of sides.now) v.items) }
    ensures { IfOk result (λ o. option_map order_in o ≡ option_map (order_cut sides.now) (option_map (λ v. v.items) flags)) }
{
    match flags {
        None => Ok(None),
        Some(flags) => {
            let cut = unseamed(alloc, sides, flags.as_slice())?;
            Ok(Some(surface_in_order(alloc, cut, false)?))
        }
    }
}

/// The surfaces that are cut at the seams of attributes, each where there are any.
fn cuts_of(
    alloc: Global,
    sides: &SideTable,
    flags: Vec<Option<Vec<bool>>>,
) -> Result<Vec<Option<OrderedSurface>>, Memory>
    requires { All (λ o. IfSome o (λ v. AreFlags sides.now.faces (gluing_of sides.now) v.items)) flags.items }
    ensures { IfOk result (λ v. map (option_map order_in) v.items ≡ map (option_map (order_cut sides.now)) (map (option_map (λ v. v.items)) flags.items)) }
{
    let mut cuts = Vec::new(alloc);
    for flags in flags {
        cuts.push(cut_surface(alloc, sides, flags)?)?;
    }
    Ok(cuts)
}

/// The surfaces that the values of a mesh's attributes stand on, from its own and the seams; entries of vertices are
/// ordered by prediction degree or depth first.
pub fn surfaces_of<'m>(
    alloc: Global,
    mesh: TurnedMesh<'m>,
    sides: SideTable,
    flags: Vec<Option<Vec<bool>>>,
    degree: bool,
) -> Result<AttributeSurfaces<'m>, Memory>
    requires faces { sides.faces ≡ length mesh.faces }
    requires flags { map (option_map (λ v. v.items)) flags.items ≡ flag_lists (glued_by mesh sides) }
    ensures glued { IfOk result (λ s. glued_on s ≡ glued_by mesh.entry sides) }
    ensures are { IfOk result (λ s. AreAttributeSurfaces degree s) }
{
    // For the prover alone: the call states that the table is a surface.
    let _faces = sides.face_count();
    let cut = cuts_of(alloc, &sides, flags)?;
    let whole = surface_in_order(alloc, sides, degree)?;
    Ok(AttributeSurfaces { mesh, whole, cut })
}

/// The surface that the values of an attribute stand on.
pub fn surface_at<'s>(s: &'s AttributeSurfaces<'_>, attr: usize) -> &'s OrderedSurface
    requires { attr < length s.now.cut.items }
    ensures { order_in result.now ≡ order_at s.now attr }
{
    match &s.cut[attr] {
        Some(surface) => surface,
        None => &s.whole,
    }
}

/// Whether the values of an attribute belong to corners.
pub fn is_cut_at(s: &AttributeSurfaces<'_>, attr: usize) -> bool
    requires { attr < length s.now.cut.items }
    ensures { (degree : Bool) → AreAttributeSurfaces degree s.now → result ≡ is_cornered (glued_on s.now) attr }
{
    s.cut[attr].is_some()
}
