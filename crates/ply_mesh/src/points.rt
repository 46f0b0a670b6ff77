//! The points of a mesh and those of a cloud, under the same names.

ghost use Rattle.std.specs.Prelude.{◌≡◌, ◌<◌, ◌≤◌, ℕ, ℤ, List, [], length, slice_index_or};

use mesh_model::{Cloud, CornerMesh};

/// Points, each a row of integers.
pub(crate) trait Points {
    /// The rows.
    ghost rows: { Self → List (List ℤ) };

    /// How many points there are.
    fn count(&self) -> u32
        ensures { result ≡ length (rows self.now) };

    /// The integers of point `i`, which are 1 to 128.
    fn row(&self, i: u32) -> &[i32]
        requires { i < length (rows self.now) }
        ensures row { result.now ≡ slice_index_or (rows self.now) i [] }
        ensures some { 0 < length result.now }
        ensures most { length result.now ≤ 128 };
}

impl Points for CornerMesh {
    ghost rows = { λ m. m.points };

    fn count(&self) -> u32 {
        self.point_count()
    }

    fn row(&self, i: u32) -> &[i32] {
        // For the prover alone: a row has 1 to 128 integers.
        let _width = self.width();
        self.point(i)
    }
}

impl Points for Cloud {
    ghost rows = { λ c. c.points };

    fn count(&self) -> u32 {
        self.point_count()
    }

    fn row(&self, i: u32) -> &[i32] {
        // For the prover alone: a row has 1 to 128 integers.
        let _width = self.width();
        self.point(i)
    }
}
