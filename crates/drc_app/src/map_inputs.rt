//! What stands behind a map that was read from the front of an input.

ghost use Rattle.std.specs.Prelude.{◌≡◌, Ok, drop};
ghost use Rattle.mesh_model.specs.MapRead.{map_read};

use mesh_model::MapRead;

/// What stands behind the map that was read from the front of `input`.
pub fn behind_map<'a>(map: &MapRead, input: &'a [u8]) -> &'a [u8]
    requires { map_read input.now ≡ Ok map.now }
    ensures { result.now ≡ drop map.now.end input.now }
{
    &input[map.end as usize..]
}
