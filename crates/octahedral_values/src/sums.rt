//! Sums of the normals of the faces round entries.

ghost use Rattle.std.specs.Prelude.{◌≡◌, ◌%◌, ◌<◌, ℕ, length, All, IfOk};
ghost use Rattle.corner_table.specs.Ordered.{entries_by};
ghost use Rattle.octahedral_values.specs.Steps.{normals_round};

use drc_base::Memory;
use normal_prediction::add_normals;
use std::alloc::Global;
use wrapped_vectors::{Place, Vector, vector_at};

/// The sum of the normals of the faces round each entry, to 64 bits: `classes` has the class of each corner, three for each face,
/// `entry_of_class` the entry of each class, and `places` the place of each entry. It takes memory for the sums, 24 bytes an entry, and
/// fails only when out of memory (Draco 1.5.5, MeshPredictionSchemeGeometricNormalPredictorArea).
pub fn normals_round(
    alloc: Global,
    classes: &[u32],
    entry_of_class: &[u32],
    places: &[Place],
) -> Result<Vec<Vector>, Memory>
    requires whole { length classes.now % 3 ≡ 0 }
    requires classes { All (λ (k : ℕ). k < length entry_of_class.now) classes.now }
    requires entries { All (λ e. e < length places.now) (entries_by classes.now entry_of_class.now) }
    ensures { IfOk result (λ sums. sums.items ≡ normals_round (entries_by classes.now entry_of_class.now) places.now) }
{
    let mut sums = vec![in alloc; vector_at(0, 0, 0); places.len()]?;
    add_normals(classes, entry_of_class, places, sums.as_mut_slice());
    Ok(sums)
}
