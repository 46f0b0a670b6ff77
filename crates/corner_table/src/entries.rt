//! The entries of a table, which are read at the cost of a look each.

ghost use Rattle.std.specs.Prelude.{◌≡◌, ◌+◌, ◌<◌, ◌≤◌, [], get_or, set, length, vec_len, IfOk, replicate};
ghost use Rattle.corner_table.specs.Entries.{with_three};
ghost use Rattle.corner_table.specs.Table.{free_entry};

use crate::steps::Looks;
use drc_base::Memory;
use std::alloc::Global;
use std::marker::Model;

/// The entry of a side that is in no pair, in the list that a table is.
pub const FREE: u32 = u32::MAX;

/// A list of a table, an entry for each side. Only `at` reads an entry, and takes a look for it; `lent`
/// lends the list, and takes a look for each entry.
#[derive(Drop)]
pub(crate) struct Entries {
    list: Vec<u32>,
}

impl Model for Entries {
    ghost use Rattle.std.specs.Prelude.{vec_capacity};
    ghost use Rattle.corner_table.specs.Entries.{EntryList};

    ghost Value = { EntryList };

    ghost view = { λ e. record { items = e.list.items; room = vec_capacity e.list } };
}

impl Entries {
    /// Entries that are all one number, as many as is said.
    pub(crate) fn filled(alloc: Global, value: u32, count: usize) -> Result<Entries, Memory>
        ensures items { IfOk result (λ e. e.items ≡ replicate count value) }
        ensures len { IfOk result (λ e. length e.items ≡ count) }
    {
        Ok(Entries {
            list: filled(alloc, value, count)?,
        })
    }

    /// No entries, and room for so many.
    pub(crate) fn with_room(alloc: Global, count: usize) -> Result<Entries, Memory>
        ensures items { IfOk result (λ e. e.items ≡ []) }
        ensures room { IfOk result (λ e. e.room ≡ count) }
    {
        Ok(Entries {
            list: Vec::with_capacity(alloc, count)?,
        })
    }

    /// Adds the entries of the three sides of a face.
    pub(crate) fn add(&mut self, a: u32, b: u32, d: u32)
        requires { length self.old.items + 3 ≤ self.old.room }
        ensures items { self.new.items ≡ with_three self.old.items a b d }
        ensures room { self.new.room ≡ self.old.room }
    {
        self.list.push_reserved(a);
        self.list.push_reserved(b);
        self.list.push_reserved(d);
    }

    /// The entries of a list.
    pub(crate) fn from_vec(list: Vec<u32>) -> Entries
        ensures { result.items ≡ list.items }
    {
        Entries { list }
    }

    /// How many there are.
    pub(crate) fn count(&self) -> u64
        ensures { result ≡ length self.now.items }
    {
        self.list.len() as u64
    }

    /// The entry with a number.
    pub(crate) fn at(&self, number: u32, looks: &mut Looks) -> u32
        requires inside { number < length self.now.items }
        requires look { 0 < looks.old.left }
        ensures link { result ≡ get_or self.now.items number 0 }
        ensures side { result ≡ get_or self.now.items number free_entry }
        ensures look { looks.new.left + 1 ≡ looks.old.left }
    {
        looks.take();
        self.list[number as usize]
    }

    /// All entries.
    pub(crate) fn lent(&self, _looks: Looks) -> &[u32]
        requires { length self.now.items ≤ _looks.left }
        ensures { result.now ≡ self.now.items }
    {
        self.list.as_slice()
    }

    /// Puts a number in the place of an entry.
    pub(crate) fn put(&mut self, number: u32, value: u32)
        requires { number < length self.old.items }
        ensures items { self.new.items ≡ set self.old.items number value }
        ensures room { self.new.room ≡ self.old.room }
    {
        self.list[number as usize] = value;
    }
}

/// A list of one number, as often as is said.
pub(crate) fn filled(alloc: Global, value: u32, count: usize) -> Result<Vec<u32>, Memory>
    ensures items { IfOk result (λ v. v.items ≡ replicate count value) }
    ensures len { IfOk result (λ v. vec_len v ≡ count) }
{
    Ok(vec![in alloc; value; count]?)
}
