//! What holds of the definitions themselves.

ghost use Rattle.std.specs.Prelude.{ℕ};
ghost use Rattle.drc_gen.specs.declared.kinds.GenKind.{GenKind};
ghost use Rattle.drc_gen.specs.GeneratedLaws.{GeneratedIsMesh, PointsAreCounted, FacesAreCounted, FacesAreSome, FacesAreProper, ValuesAreSmall};

/// Each kind is a mesh at each size from `LEAST_SIZE` to `MOST_SIZE`, whatever the seed, and at size n
/// has these points and faces: a grid (n + 1)^2 and 2 n^2, a torus n^2 and 2 n^2, one with holes
/// (n + 1)^2 and 2 (n^2 - h^2), where h holes stand each way, (n - 1) div 2, a fan 2 n^2 + 1 and n^2,
/// patches 4 n^2 and 2 n^2. This is the contract of a call that does nothing.
pub fn generated_is_a_mesh()
    ensures mesh { GeneratedIsMesh }
    ensures points { PointsAreCounted }
    ensures faces { (kind : GenKind) (n : ℕ) → FacesAreCounted kind n }
{}

/// What a mesh needs so that no method refuses it holds of each kind at each size from `LEAST_SIZE` to
/// `MOST_SIZE`, whatever the seed: there is a face, no face has two corners at one position, and each
/// integer of a point is from 0 to 2^20 - 1. This is the contract of a call that does nothing.
pub fn generated_is_proper()
    ensures some { FacesAreSome }
    ensures proper { FacesAreProper }
    ensures small { ValuesAreSmall }
{}
