//! Corrections in a list, which the tests of predictions take one after another.

ghost use Rattle.std.specs.Prelude.{◌≡◌, ◌<◌, ◌∷◌, length};

use predict::CorrectionSource;
use std::marker::Model;

/// A list of corrections of which the first ones are taken. Contracts see the list of those that are still
/// to come.
#[derive(Drop)]
pub struct ListedCorrections {
    numbers: Vec<i32>,
    taken: usize,
}

impl Model for ListedCorrections {
    ghost use Rattle.std.specs.Prelude.{◌≤◌, ℤ, List, drop, vec_len};

    ghost Value = { List ℤ };

    ghost view = { λ s. drop s.taken s.numbers.items };

    ghost invariant = { λ s. s.taken ≤ vec_len s.numbers };
}

impl ListedCorrections {
    /// All corrections of this list.
    pub fn new(numbers: Vec<i32>) -> ListedCorrections
        ensures { result ≡ numbers.items }
    {
        ListedCorrections { numbers, taken: 0 }
    }
}

impl CorrectionSource for ListedCorrections {
    ghost left = { λ s. s };

    fn len(&self) -> usize {
        self.numbers.len() - self.taken
    }

    fn next(&mut self) -> i32 {
        let at = self.taken;
        self.taken = at + 1;
        self.numbers[at]
    }
}
