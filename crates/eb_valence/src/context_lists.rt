//! The lists of the contexts.

ghost use Rattle.std.specs.Prelude.{◌≡◌, reverse};

use drc_base::Memory;
use std::alloc::Global;
use std::marker::Model;

/// How many contexts there are, one for each degree from 2 to 7.
pub const CONTEXTS: usize = 6;

/// For each context the numbers of its symbols, in the order of the encoder: C 0, S 1, L 2, R 3, E 4 (Draco
/// Bitstream Specification 2.2, Edgebreaker valence traversal). Contracts see it as the list of the six lists.
#[derive(Debug, Drop)]
pub struct ContextLists {
    lists: [Vec<u32>; CONTEXTS],
}

impl Model for ContextLists {
    ghost use Rattle.std.specs.Prelude.{ℕ, List, map};

    ghost Value = { List (List ℕ) };

    ghost view = { λ s. map (λ v. v.items) s.lists };
}

impl ContextLists {
    ghost use Rattle.std.specs.Prelude.{◌≡◌, ◌<◌, ◌++◌, ◌∷◌, [], map, get_or, set, reverse, replicate, OnOk};

    /// These lists. It takes no memory.
    pub fn new(lists: [Vec<u32>; CONTEXTS]) -> ContextLists
        ensures { result ≡ map (λ v. v.items) lists }
    {
        ContextLists { lists }
    }

    /// The list of a context.
    pub fn list(&self, context: usize) -> &[u32]
        requires { context < CONTEXTS }
        ensures { result.now ≡ get_or self.now context [] }
    {
        self.lists[context].as_slice()
    }

    /// Gives the lists back. It takes no memory.
    pub fn into_lists(self) -> [Vec<u32>; CONTEXTS]
        ensures { map (λ v. v.items) result ≡ self }
    {
        self.lists
    }

    /// Six lists of nothing.
    pub(crate) fn none(alloc: Global) -> ContextLists
        ensures { result ≡ replicate CONTEXTS [] }
    {
        ContextLists {
            lists: [
                Vec::new(alloc),
                Vec::new(alloc),
                Vec::new(alloc),
                Vec::new(alloc),
                Vec::new(alloc),
                Vec::new(alloc),
            ],
        }
    }

    /// Puts a number behind the list of a context.
    pub(crate) fn put(&mut self, context: usize, number: u32) -> Result<(), Memory>
        requires { context < CONTEXTS }
        ensures { OnOk result (self.new ≡ set self.old context (get_or self.old context [] ++ number ∷ [])) }
    {
        self.lists[context].push(number)?;
        Ok(())
    }

    /// The same lists, each from its back to its front. It takes no memory.
    pub(crate) fn turned_round(self) -> ContextLists
        ensures { result ≡ map reverse self }
    {
        let [a, b, c, d, e, f] = self.into_lists();
        ContextLists::new([
            turned(a),
            turned(b),
            turned(c),
            turned(d),
            turned(e),
            turned(f),
        ])
    }
}

/// A list from its back to its front.
fn turned(mut list: Vec<u32>) -> Vec<u32>
    ensures { result.items ≡ reverse list.items }
{
    list.reverse();
    list
}
