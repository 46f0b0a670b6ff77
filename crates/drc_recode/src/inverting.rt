//! A renumbering turned back.

ghost use Rattle.std.specs.Prelude.{◌≡◌, ◌⊎◌, ◌<◌, ◌≤◌, ◌^◌, ℕ, false, true, All, IfOk, IsTrue, length, slice_index_or};
ghost use Rattle.drc_base.specs.Refusals.{Answers};
ghost use Rattle.mesh_model.specs.declared.geometries.Geometry.{Geometry};
ghost use Rattle.mesh_model.specs.Renumbering.{composed, plain, NamesApart};
ghost use Rattle.mesh_model.specs.Same.{NamesEachOnce, Same};
ghost use Rattle.drc_recode.specs.Inverse.{inverse_of};

use crate::laws::the_first_order_comes_back;
use drc_base::{Fault, Kind, Refusal, Sequence};
use mesh_model::{Renumber, renumbered_is_a_mesh, same_is_an_equivalence};
use std::alloc::Global;

/// The greatest turn of a face.
pub const GREATEST_TURN: u8 = 2;

/// Whether a row names a number of a row that isn't seen yet, and its turn is at most `greatest`.
fn is_fine(seen: &[bool], row: (u32, u8), greatest: u8) -> bool
    ensures fine { IsTrue result → (row.0 < length seen.now) × (slice_index_or seen.now row.0 false ≡ false) × (row.1 ≤ greatest) }
    ensures bad { result ≡ false → (length seen.now ≤ row.0) ⊎ ((slice_index_or seen.now row.0 false ≡ true) ⊎ (greatest < row.1)) }
{
    (row.0 as usize) < seen.len() && !seen[row.0 as usize] && row.1 <= greatest
}

/// The way back of rows whose turns are at most `greatest`: row f is the number of the row that names f,
/// turned back. Refused with `BadMap` at the first row that names no row, names one that an earlier row
/// names, or has a greater turn.
pub fn inverse(alloc: Global, rows: &[(u32, u8)], greatest: u8) -> Result<Vec<(u32, u8)>, Refusal>
    requires few { length rows.now < 2 ^ 32 }
    requires turns { greatest < 3 }
    ensures answer { Answers (λ v. v.items) (inverse_of greatest rows.now) result }
    ensures names { IfOk result (λ _. NamesEachOnce (length rows.now) rows.now) }
    ensures turns { IfOk result (λ _. All (λ row. row.1 ≤ greatest) rows.now) }
    ensures apart { IfOk result (λ v. NamesApart (length rows.now) v.items) }
{
    // For the prover alone: the call states that rows which name different numbers name each once.
    renumbered_is_a_mesh();
    let mut seen = vec![in alloc; false; rows.len()]?;
    let mut back = vec![in alloc; (0u32, 0u8); rows.len()]?;
    for (i, row) in rows.iter().enumerate() {
        if !is_fine(seen.as_slice(), *row, greatest) {
            return Err(Refusal::Fault(Fault::new(Kind::BadMap, i as u64)));
        }
        seen[row.0 as usize] = true;
        back[row.0 as usize] = (i as u32, (3 - row.1) % 3);
    }
    Ok(back)
}

/// The renumbering turned back: row f is (i, (3 - turn) modulo 3), where row i names f with this turn. Where
/// `n` is `g` by `c`, `g` is `n` by these rows; and `c` and then these are the plain rows. `c` has fewer than
/// 2^32 rows. Refused with `BadMap` at the first row that names no row, names one that an earlier row names,
/// or has a turn above 2.
pub fn invert(alloc: Global, c: &Renumber) -> Result<Renumber, Refusal>
    requires { length c.now.rows < 2 ^ 32 }
    ensures answer { Answers (λ r. r.rows) (inverse_of 2 c.now.rows) result }
    ensures names { IfOk result (λ _. NamesEachOnce (length c.now.rows) c.now.rows) }
    ensures undone { IfOk result (λ r. composed c.now.rows r.rows ≡ plain (length c.now.rows)) }
    ensures same { IfOk result (λ r. (g n : Geometry) → Same g n c.now.rows → Same n g r.rows) }
{
    same_is_an_equivalence();
    the_first_order_comes_back();
    let back = inverse(alloc, c.rows.as_slice(), GREATEST_TURN)?;
    Ok(Renumber {
        rows: Sequence::from_vec(back),
    })
}
