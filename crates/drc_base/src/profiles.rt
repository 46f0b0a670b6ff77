//! The profiles of the stream.

ghost use Rattle.std.specs.Prelude.{◌≡◌, nat_le};

/// What a stream may have, by the number of a profile: a profile has all that the ones before it have, and what came with it
/// (this project's choice).
#[derive(Clone, Copy, Debug, PartialEq, Eq)]
pub struct Profile {
    /// The number of the profile.
    pub number: u8,
}

/// The profile of streams for which no other one is chosen: integers and quantised floats, by each prediction up to constrained
/// multi-parallelogram prediction.
pub const PROFILE_TWO: Profile = Profile { number: 2 };

/// The profile that adds octahedral normals, and the predictions of normals and of texture coordinates from positions.
pub const PROFILE_THREE: Profile = Profile { number: 3 };

impl Profile {
    /// Whether the profile has what came with this one.
    pub fn has(self, since: u32) -> bool
        ensures { result ≡ nat_le since self.number }
    {
        since <= self.number as u32
    }
}
