//! One renumbering after another.

ghost use Rattle.std.specs.Prelude.{◌≡◌, ◌+◌, ◌%◌, ◌<◌, ℕ, All, IfOk, length};
ghost use Rattle.mesh_model.specs.declared.geometries.Geometry.{Geometry};
ghost use Rattle.mesh_model.specs.Renumbering.{composed};
ghost use Rattle.mesh_model.specs.Same.{Same, named, turn};

use drc_base::{Memory, Sequence};
use mesh_model::{Renumber, same_is_an_equivalence};
use std::alloc::Global;

/// What a row names by the rows that were there before: the number that these name, and the sum of the
/// turns modulo 3.
fn renamed(rows: &[(u32, u8)], row: (u32, u8)) -> (u32, u8)
    requires named { row.0 < length rows.now }
    requires turns { All (λ r. r.1 < 3) rows.now }
    requires turn { row.1 < 3 }
    ensures { result ≡ (named rows.now row.0, (turn rows.now row.0 + row.1) % 3) }
{
    let first = rows[row.0 as usize];
    (first.0, (first.1 + row.1) % 3)
}

/// The renumbering `a` and then the renumbering `b`: row i is the number that `a` gives to the number of
/// row i of `b`, with the sum of both turns modulo 3. Where one geometry is another by `a`, and a third is
/// that one by `b`, the third is the first by these rows. Each row of `b` names a row of `a`, and turns
/// are below 3.
pub fn compose(alloc: Global, a: &Renumber, b: &Renumber) -> Result<Renumber, Memory>
    requires names { All (λ row. row.0 < length a.now.rows) b.now.rows }
    requires first { All (λ row. row.1 < 3) a.now.rows }
    requires second { All (λ row. row.1 < 3) b.now.rows }
    ensures rows { IfOk result (λ c. c.rows ≡ composed a.now.rows b.now.rows) }
    ensures same { IfOk result (λ c. (g n o : Geometry) → Same g n a.now.rows → Same n o b.now.rows → Same g o c.rows) }
{
    same_is_an_equivalence();
    let mut rows = Vec::with_capacity(alloc, b.rows.len())?;
    for row in b.rows.as_slice() {
        rows.push(renamed(a.rows.as_slice(), *row))?;
    }
    Ok(Renumber {
        rows: Sequence::from_vec(rows),
    })
}
