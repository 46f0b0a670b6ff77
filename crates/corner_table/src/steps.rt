//! Counting of table calls, of the entries that a call lends, and of the looks that a step has.

ghost use Rattle.std.specs.Prelude.{◌≡◌, ℕ, ◌+◌, ◌-◌, ◌*◌, ◌<◌};
ghost use Rattle.std.specs.Borrow.{ftrue};
ghost use Rattle.corner_table.specs.Looks.{looks_of_a_step};

use std::marker::Model;
use std::sync::ledger::{Blank, Book, Ledger, Share};

/// The looks at entries that are left of the steps that were counted. Counting alone gives looks, a read of
/// an entry takes one, and they aren't copied. Their number takes no bytes: proofs alone know it, and only
/// `of_steps` and `fewer` set it.
#[derive(Drop)]
pub(crate) struct Looks {
    pub(crate) ghost left: { ℕ },
}

impl Model for Looks {
    ghost also_owns = { λ _. ftrue };
}

impl Looks {
    /// The looks of so many steps.
    fn of_steps(_steps: u64) -> Looks
        ensures { result.left ≡ looks_of_a_step * _steps }
    {
        Looks {}
    }

    /// One look less.
    fn fewer(_before: &Looks) -> Looks
        ensures { result.left ≡ _before.now.left - 1 }
    {
        Looks {}
    }

    /// Takes a look.
    pub(crate) fn take(&mut self)
        requires { 0 < self.old.left }
        ensures { self.new.left + 1 ≡ self.old.left }
    {
        *self = Looks::fewer(self);
    }
}

/// How many table calls were made; one that lends a list counts for each of its entries. It takes no
/// bytes, and only `tick` and `count` change it.
#[derive(Drop)]
pub struct Steps<L: Ledger> {
    book: Book<L>,
    share: Share<L>,
}

impl<L: Ledger> Model for Steps<L> {
    ghost use Rattle.std.specs.Prelude.{ℕ, ◌<◌};

    ghost Value = { ℕ };

    ghost view = { λ s. s.book.total };

    ghost invariant = { λ s. 0 < s.share.parts };
}

impl<L: Ledger> Steps<L> {
    ghost use Rattle.std.specs.Prelude.{◌≡◌, ◌+◌, ◌*◌, ◌<◌};
    ghost use Rattle.corner_table.specs.Looks.{looks_of_a_step};

    /// A count of no calls yet, in the ledger that `blank` names.
    pub fn new(blank: Blank) -> Steps<L>
        requires name { blank.name ≡ L.name }
        requires parts { blank.parts ≡ L.parts }
        requires some { 0 < L.parts }
        ensures { result ≡ 0 }
    {
        let (book, share) = blank.open();
        Steps { book, share }
    }

    /// Counts one call, and gives the looks that it has.
    pub(crate) fn tick(&mut self) -> Looks
        ensures steps { self.new ≡ self.old + 1 }
        ensures looks { result.left ≡ looks_of_a_step }
    {
        self.count(1)
    }

    /// Counts as many calls as is said, and gives the looks that they have.
    pub(crate) fn count(&mut self, calls: u64) -> Looks
        ensures steps { self.new ≡ self.old + calls }
        ensures looks { result.left ≡ looks_of_a_step * calls }
    {
        self.book.add(&mut self.share, calls);
        Looks::of_steps(calls)
    }
}
