//! The bounds of the numbers in the line of a point.

ghost use Rattle.std.specs.Prelude.{◌≡◌, ◌++◌, None, replicate, OnOk, IfOk};
ghost use Rattle.attr_heads.specs.Head.{heads_fault, row_bounds};

use attr_heads::{Bounds, Head};
use drc_base::Memory;
use std::alloc::Global;

/// Appends the bounds of an attribute for each of its integers.
fn put_bounds(out: &mut Vec<Bounds>, comps: u8, bounds: Bounds) -> Result<(), Memory>
    ensures { OnOk result (out.new.items ≡ out.old.items ++ replicate comps bounds) }
{
    for _ in 0..comps {
        out.push(bounds)?;
    }
    Ok(())
}

/// The bounds of each integer of a row.
#[tactic(auto, using(crate::proofs::RowColumns::no_columns, crate::proofs::RowColumns::more_columns, crate::proofs::RowColumns::all_columns, crate::proofs::RowColumns::square_bits))]
pub(crate) fn row_bounds(alloc: Global, heads: &[Head]) -> Result<Vec<Bounds>, Memory>
    requires { heads_fault heads.now ≡ None }
    ensures { IfOk result (λ columns. columns.items ≡ row_bounds heads.now) }
{
    let mut columns = Vec::new(alloc);
    for i in 0..heads.len() {
        let head = &heads[i];
        put_bounds(&mut columns, head.comps, head.bounds())?;
    }
    Ok(columns)
}
