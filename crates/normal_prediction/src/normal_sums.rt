//! Sums of normals over the faces round entries. All three corners of a face see one normal, so one pass over the faces takes one cross
//! product for each of them, and adds it to the sums of the entries of its three corners. These are looked up by the corners' classes, so
//! no list of the entry of each corner is made.

ghost use Rattle.std.specs.Prelude.{◌≡◌, ◌*◌, ◌+◌, ◌%◌, ◌<◌, ℕ, length, get_or, All};
ghost use Rattle.corner_table.specs.Ordered.{entries_by};
ghost use Rattle.wrapped_vectors.specs.Vectors.{apart, cross, reduced};
ghost use Rattle.normal_prediction.specs.NormalSums.{AreSums, no_vector, place_at};

use wrapped_vectors::{Place, Vector, apart, cross, vector_sum};

/// The entry of corner `i`, by its class.
#[inline(always)]
fn entry_of(classes: &[u32], entry_of_class: &[u32], i: usize) -> u32
    requires corner { i < length classes.now }
    requires classes { All (λ (k : ℕ). k < length entry_of_class.now) classes.now }
    ensures { result ≡ get_or (entries_by classes.now entry_of_class.now) i 0 }
{
    entry_of_class[classes[i] as usize]
}

/// The normal of a face as its first corner sees it, to 64 bits: `a`, `b` and `c` are the entries of its corners.
#[inline(always)]
fn normal_of(places: &[Place], a: u32, b: u32, c: u32) -> Vector
    requires first { a < length places.now }
    requires second { b < length places.now }
    requires third { c < length places.now }
    ensures { result ≡ reduced (cross (apart (place_at places.now b) (place_at places.now a)) (apart (place_at places.now c) (place_at places.now a))) }
{
    let first = places[a as usize];
    cross(
        apart(places[b as usize], first),
        apart(places[c as usize], first),
    )
}

/// Adds up the normals of the faces round each entry, to 64 bits: `classes` has the class of each corner, three for each face,
/// `entry_of_class` the entry of each class, `places` the place of each entry, and `sums` the zero vector for each entry before
/// (Draco 1.5.5, MeshPredictionSchemeGeometricNormalPredictorArea).
pub fn add_normals(classes: &[u32], entry_of_class: &[u32], places: &[Place], sums: &mut [Vector])
    requires whole { length classes.now % 3 ≡ 0 }
    requires places { length places.now ≡ length sums.old }
    requires classes { All (λ (k : ℕ). k < length entry_of_class.now) classes.now }
    requires entries { All (λ e. e < length places.now) (entries_by classes.now entry_of_class.now) }
    requires none { All (λ v. v ≡ no_vector) sums.old }
    ensures { AreSums (entries_by classes.now entry_of_class.now) places.now sums.new (length classes.now) }
{
    for f in 0..classes.len() / 3 {
        let a = entry_of(classes, entry_of_class, 3 * f);
        let b = entry_of(classes, entry_of_class, 3 * f + 1);
        let c = entry_of(classes, entry_of_class, 3 * f + 2);
        let normal = normal_of(places, a, b, c);
        sums[a as usize] = vector_sum(sums[a as usize], normal);
        sums[b as usize] = vector_sum(sums[b as usize], normal);
        sums[c as usize] = vector_sum(sums[c as usize], normal);
    }
}
