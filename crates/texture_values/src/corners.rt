//! The entries round the corner of an entry, in its face.

ghost use Rattle.std.specs.Prelude.{◌≡◌, ◌*◌, ◌<◌, length};
ghost use Rattle.corner_table.specs.Sides.{next, prev, side_at};
ghost use Rattle.corner_table.specs.Ordered.{corner_at, corner_entry};
ghost use Rattle.predict.specs.Surfaces.{surface, IsOverTable};

use corner_table::{next_number, previous_number};
use predict::Ordered;

/// The corner of an entry.
fn corner_of(on: &Ordered<'_>, e: usize) -> u32
    requires over { IsOverTable on.now }
    requires entry { e < length on.now.order.now.corner_of_entry }
    ensures corner { side_at result ≡ corner_at (surface on.now) e }
    ensures within { result < 3 * on.now.sides.now.faces }
{
    on.order.corner_of_entry.as_slice()[e]
}

/// The entry of a corner, by its class.
fn entry_of(on: &Ordered<'_>, corner: u32) -> u32
    requires over { IsOverTable on.now }
    requires corner { corner < 3 * on.now.sides.now.faces }
    ensures { result ≡ corner_entry (surface on.now) (side_at corner) }
{
    let class = on.classes.of_corner.as_slice()[corner as usize];
    on.order.entry_of_class.as_slice()[class as usize]
}

/// The entries of the corners after and before that of an entry, in its face.
pub(crate) fn entries_round(on: &Ordered<'_>, e: usize) -> (u32, u32)
    requires over { IsOverTable on.now }
    requires entry { e < length on.now.order.now.corner_of_entry }
    ensures after { result.0 ≡ corner_entry (surface on.now) (next (corner_at (surface on.now) e)) }
    ensures before { result.1 ≡ corner_entry (surface on.now) (prev (corner_at (surface on.now) e)) }
{
    // For the prover alone: a table has few faces.
    let _faces = on.sides.face_count();
    let corner = corner_of(on, e);
    let after = entry_of(on, next_number(corner));
    let before = entry_of(on, previous_number(corner));
    (after, before)
}
