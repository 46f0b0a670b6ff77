//! The classes of the corners of a cut surface, which the surface shares with the values that stand on it.

ghost use Rattle.std.specs.Prelude.{◌≡◌, IfOk};

use corner_table::Classes;
use drc_base::Memory;
use std::marker::Model;
use std::rc::Rc;

/// The classes of the corners of a cut surface: they are freed when neither the surface nor any values that stand on it are kept. Contracts
/// see the class of each corner.
#[derive(Drop)]
pub struct SharedClasses {
    classes: Rc<Classes>,
}

impl Model for SharedClasses {
    ghost use Rattle.std.specs.Prelude.{ℕ, List};

    ghost Value = { List ℕ };

    ghost view = { λ s. s.classes.value.of_corner };
}

impl SharedClasses {
    ghost use Rattle.std.specs.Prelude.{◌≡◌, IfOk};

    /// The same classes once more. It takes no memory, and fails only when they are shared too often to be counted.
    pub fn of(classes: &Rc<Classes>) -> Result<SharedClasses, Memory>
        ensures { IfOk result (λ s. s ≡ classes.now.value.of_corner) }
    {
        let classes = classes.clone()?;
        Ok(SharedClasses { classes })
    }

    /// The class of each corner.
    pub fn as_slice(&self) -> &[u32]
        ensures { result.now ≡ self.now }
    {
        self.classes.of_corner.as_slice()
    }
}
