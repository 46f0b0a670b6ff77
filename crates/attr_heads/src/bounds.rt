//! The integers that an attribute may have.

ghost use Rattle.std.specs.Prelude.{◌≡◌};
ghost use Rattle.attr_heads.specs.Bounds.{in_bounds, type_bounds};

use crate::data_types::{greatest_of, least_of};

/// The least and the greatest integer of an attribute.
#[derive(Clone, Copy, Debug, PartialEq, Eq)]
pub struct Bounds {
    /// The least integer.
    pub least: i32,
    /// The greatest integer.
    pub greatest: i32,
}

impl Bounds {
    /// The bounds of a data type; 0 to 2^31 - 1 where no type has this byte.
    pub fn of_type(dtype: u8) -> Bounds
        ensures { result ≡ type_bounds dtype }
    {
        Bounds {
            least: least_of(dtype),
            greatest: greatest_of(dtype),
        }
    }

    /// Whether an integer lies within the bounds.
    #[tactic(auto, unfolding(crate::specs::Bounds::in_bounds))]
    pub fn hold(self, value: i32) -> bool
        ensures { result ≡ in_bounds self value }
    {
        self.least <= value && value <= self.greatest
    }
}
