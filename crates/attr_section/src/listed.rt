//! Integers that were read already, taken one after another.

ghost use Rattle.std.specs.Prelude.{◌≡◌, ◌<◌, ◌∷◌, length, map};
ghost use Rattle.attr_section.specs.Values.{signed_of};

use crate::integers::signed_of;
use predict::CorrectionSource;
use std::marker::Model;

/// A list of numbers that are taken one after another. Contracts see the list of those that are still to
/// come.
#[derive(Drop)]
pub struct Listed<T> {
    numbers: Vec<T>,
    taken: usize,
}

impl<T> Model for Listed<T> {
    ghost use Rattle.std.specs.Prelude.{◌≤◌, List, drop, vec_len};

    ghost Value = { List T };

    ghost view = { λ s. drop s.taken s.numbers.items };

    ghost invariant = { λ s. s.taken ≤ vec_len s.numbers };
}

impl<T> Listed<T> {
    /// All numbers of this list.
    pub fn new(numbers: Vec<T>) -> Listed<T>
        ensures { result ≡ numbers.items }
    {
        Listed { numbers, taken: 0 }
    }

    /// How many are to come.
    #[inline(always)]
    fn count(&self) -> usize
        ensures { result ≡ length self.now }
    {
        self.numbers.len() - self.taken
    }
}

impl<T: Copy> Listed<T> {
    /// Takes the next number.
    #[inline(always)]
    fn take(&mut self) -> T
        requires { 0 < length self.old }
        ensures { self.old ≡ result ∷ self.new }
    {
        let at = self.taken;
        self.taken = at + 1;
        self.numbers[at]
    }
}

/// Integers that were read as they are.
impl CorrectionSource for Listed<i32> {
    ghost left = { λ s. s };

    fn len(&self) -> usize {
        self.count()
    }

    #[inline(always)]
    fn next(&mut self) -> i32 {
        self.take()
    }
}

/// The integers of zigzag symbols.
impl CorrectionSource for Listed<u32> {
    ghost left = { λ s. map signed_of s };

    fn len(&self) -> usize {
        self.count()
    }

    #[inline(always)]
    fn next(&mut self) -> i32 {
        signed_of(self.take())
    }
}
