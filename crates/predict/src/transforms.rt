//! The transforms of corrections, each by its row of one table.

ghost use Rattle.std.specs.Prelude.{◌≡◌, ◌==◌, find};
ghost use Rattle.predict.specs.Transforms.{transform_byte, transforms, transform_of};

/// How corrections move predictions to values (Draco Bitstream Specification 2.2, section "Prediction Scheme
/// Transforms").
#[derive(Clone, Copy, Debug, PartialEq, Eq)]
pub enum Transform {
    /// Component by component, wrapped into the range of the values.
    Wrap,
}

impl Transform {
    /// All transforms.
    pub fn all() -> [Transform; 1]
        ensures { result ≡ transforms }
    {
        [Transform::Wrap]
    }

    /// The byte of the transform in a stream.
    pub fn byte(self) -> u8
        ensures { result ≡ transform_byte self }
    {
        match self {
            Transform::Wrap => 1,
        }
    }

    /// The transform of a byte, where there is one.
    pub fn of_byte(byte: u8) -> Option<Transform>
        ensures { result ≡ transform_of byte }
    {
        Transform::all().into_iter().find(|t| t.byte() == byte)
    }
}
