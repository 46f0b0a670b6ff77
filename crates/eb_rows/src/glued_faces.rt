//! A face more of a table, some of whose sides are glued to free sides by their numbers.

ghost use Rattle.std.specs.Prelude.{◌≡◌, ◌+◌, ◌<◌, [], ◌∷◌};
ghost use Rattle.corner_table.specs.Sides.{side, side_at, place_of, first, second, third, glue};
ghost use Rattle.corner_table.specs.Table.{gluing_of, room_of, IsFreeIn};
ghost use Rattle.eb_machine.specs.OneFaceMore.{PairsAreApart};

use corner_table::{SideTable, Steps, side_with};
use drc_base::Side;
use std::sync::ledger::Ledger;

/// Adds a face whose side `k` is glued to the free side a, and answers its number.
pub(crate) fn add_one<L: Ledger>(table: &mut SideTable, k: u8, a: u32, steps: &mut Steps<L>) -> u32
    requires place { k < 3 }
    requires room { table.old.faces < room_of table.old }
    requires free { IsFreeIn table.old (side_at a) }
    ensures face { result ≡ table.old.faces }
    ensures faces { table.new.faces ≡ table.old.faces + 1 }
    ensures room { room_of table.new ≡ room_of table.old }
    ensures glued { gluing_of table.new ≡ glue (side table.old.faces (place_of k)) (side_at a) (gluing_of table.old) }
{
    let face = table.add_face(steps);
    table.glue(Side { face, k }, side_with(a), steps);
    face
}

/// Adds a face whose side `j` is glued to the free side a, and then its side `k` to the free side b.
/// Answers its number.
pub(crate) fn add_two<L: Ledger>(
    table: &mut SideTable,
    j: u8,
    a: u32,
    k: u8,
    b: u32,
    steps: &mut Steps<L>,
) -> u32
    requires place { j < 3 }
    requires place_then { k < 3 }
    requires room { table.old.faces < room_of table.old }
    requires apart { PairsAreApart table.old.faces (gluing_of table.old) ((place_of k, side_at b) ∷ (place_of j, side_at a) ∷ []) }
    ensures face { result ≡ table.old.faces }
    ensures faces { table.new.faces ≡ table.old.faces + 1 }
    ensures room { room_of table.new ≡ room_of table.old }
    ensures glued { gluing_of table.new ≡ glue (side table.old.faces (place_of k)) (side_at b) (glue (side table.old.faces (place_of j)) (side_at a) (gluing_of table.old)) }
{
    // For the prover alone, who knows from here on that sides are glued in pairs.
    let _ = table.face_count();
    let face = add_one(table, j, a, steps);
    table.glue(Side { face, k }, side_with(b), steps);
    face
}

/// Adds a face whose sides 0, 1 and 2 are glued to the free sides a, b and c.
pub(crate) fn add_three<L: Ledger>(
    table: &mut SideTable,
    a: u32,
    b: u32,
    c: u32,
    steps: &mut Steps<L>,
)
    requires room { table.old.faces < room_of table.old }
    requires apart { PairsAreApart table.old.faces (gluing_of table.old) ((third, side_at c) ∷ (second, side_at b) ∷ (first, side_at a) ∷ []) }
    ensures faces { table.new.faces ≡ table.old.faces + 1 }
    ensures room { room_of table.new ≡ room_of table.old }
    ensures glued { gluing_of table.new ≡ glue (side table.old.faces third) (side_at c) (glue (side table.old.faces second) (side_at b) (glue (side table.old.faces first) (side_at a) (gluing_of table.old))) }
{
    // For the prover alone, who knows from here on that sides are glued in pairs.
    let _ = table.face_count();
    let face = add_two(table, 0, a, 1, b, steps);
    table.glue(Side { face, k: 2 }, side_with(c), steps);
}
