//! A surface that is cut at the seams of an attribute data, kept for the decoders behind it: where theirs has the same seams, they
//! stand on the one that was cut.

ghost use Rattle.std.specs.Prelude.{◌≡◌, IfOk, IfSome};
ghost use Rattle.corner_table.specs.Table.{Table, gluing_of};
ghost use Rattle.seams.specs.Seams.{AreFlags};
ghost use Rattle.seams.specs.SeamBits.{flags_of_bits};
ghost use Rattle.drc_container.specs.surface.CutSurfaces.{IsCutFrom};

use crate::surface::made_orders::MadeOrders;
use corner_table::{Classes, SideTable};
use drc_base::Memory;
use rans_binary::BitBlock;
use seams::{classes, read_seams, unseamed};
use std::alloc::Global;
use std::rc::Rc;

/// A surface that was cut at seams, and what was made of it.
#[derive(Drop)]
pub struct CutSurface {
    /// Of each side of the surface whether it is a seam.
    pub flags: Vec<bool>,
    /// The surface, cut at them.
    pub sides: SideTable,
    /// The classes of its corners, which it shares with the values that stand on it.
    pub classes: Rc<Classes>,
    /// The orders of its entries that were made.
    pub orders: MadeOrders,
}

/// Of each side of a surface whether it is a seam, as the first bits of a block tell.
fn seam_flags(alloc: Global, t: &SideTable, block: BitBlock<'_>) -> Result<Vec<bool>, Memory>
    ensures flags { IfOk result (λ v. v.items ≡ flags_of_bits t.now.faces (gluing_of t.now) block.entry) }
    ensures sound { IfOk result (λ v. AreFlags t.now.faces (gluing_of t.now) v.items) }
{
    let mut blocks = [block];
    let mut lists = read_seams(alloc, t, &mut blocks)?;
    Ok(lists.swap_remove(0))
}

/// A surface cut at these seams, of which no order was made.
fn cut_surface(alloc: Global, t: &SideTable, flags: Vec<bool>) -> Result<CutSurface, Memory>
    requires { AreFlags t.now.faces (gluing_of t.now) flags.items }
    ensures cut { IfOk result (IsCutFrom t.now) }
    ensures flags { IfOk result (λ u. u.flags.items ≡ flags.items) }
{
    let sides = unseamed(alloc, t, flags.as_slice())?;
    let classes = Rc::new(alloc, classes(alloc, &sides, None)?)?;
    Ok(CutSurface {
        flags,
        sides,
        classes,
        orders: MadeOrders::none(),
    })
}

/// Takes the surface out that is kept, where it was cut at these seams; else frees it.
fn take_alike(kept: &mut Option<CutSurface>, flags: &[bool]) -> Option<CutSurface>
    ensures kept { IfSome result (λ u. kept.old ≡ Some u) }
    ensures alike { IfSome result (λ u. u.flags.items ≡ flags.now) }
{
    match kept.take() {
        Some(cut) if cut.flags.as_slice() == flags => Some(cut),
        _ => None,
    }
}

/// A surface that was cut, where it is kept for another decoder; else it is freed.
pub fn kept_again(again: bool, cut: CutSurface) -> Option<CutSurface>
    ensures { (t : Table) → IsCutFrom t cut → IfSome result (IsCutFrom t) }
{
    if again { Some(cut) } else { None }
}

/// The surface cut at the seams that the first bits of a block tell: the one that is kept, which is taken out, where it was cut
/// at the same, or a new one.
pub fn cut_once(
    alloc: Global,
    t: &SideTable,
    block: BitBlock<'_>,
    kept: &mut Option<CutSurface>,
) -> Result<CutSurface, Memory>
    requires { IfSome kept.old (IsCutFrom t.now) }
    ensures cut { IfOk result (IsCutFrom t.now) }
    ensures flags { IfOk result (λ u. u.flags.items ≡ flags_of_bits t.now.faces (gluing_of t.now) block.entry) }
{
    let flags = seam_flags(alloc, t, block)?;
    match take_alike(kept, flags.as_slice()) {
        Some(cut) => Ok(cut),
        None => cut_surface(alloc, t, flags),
    }
}
