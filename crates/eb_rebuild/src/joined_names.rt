//! Names of which some are joined (disjoint sets as a forest: Galler and Fischer 1964; paths are halved as
//! they are climbed: Tarjan and van Leeuwen 1984).
//!
//! A list gives for each name the one that it was joined to, and for the others the name itself. It is
//! joined to a lesser name, so that the least of the names that were joined is their root, and one
//! ascending pass can number the roots.

ghost use Rattle.std.specs.Prelude.{◌≡◌, ℕ, ◌+◌, ◌<◌, ◌≤◌, get_or, set, vec_len, vec_capacity, length};
ghost use Rattle.eb_rebuild.specs.JoinedNames.{root_in, Falls, number_of, roots_below};

use drc_base::Memory;
use std::alloc::Global;
use std::marker::Model;

/// Names 0, 1 and so on, some of them joined.
#[derive(Debug, Drop)]
pub(crate) struct JoinedNames {
    up: Vec<u32>,
    is_joined: bool,
}

/// Numbers of names, and how many there are.
#[derive(Debug, Drop)]
pub(crate) struct RootNumbers {
    /// The number of each name; names that were joined have one number.
    pub(crate) numbers: Vec<u32>,
    /// How many numbers there are.
    pub(crate) count: u32,
}

/// What a name was joined to.
fn over(up: &Vec<u32>, name: u32) -> u32
    requires { name < vec_len up.now }
    ensures zero { result ≡ get_or up.now.items name 0 }
    ensures own { result ≡ get_or up.now.items name name }
{
    up[name as usize]
}

/// Writes a number in the place of a name.
fn put(list: &mut Vec<u32>, name: u32, number: u32)
    requires { name < vec_len list.old }
    ensures items { list.new.items ≡ set list.old.items name number }
    ensures len { vec_len list.new ≡ vec_len list.old }
    ensures capacity { vec_capacity list.new ≡ vec_capacity list.old }
{
    list[name as usize] = number;
}

/// The root of a name. Each name on the way is joined to the one beyond the next, so that ways get shorter.
#[inline(always)]
fn find(up: &mut Vec<u32>, name: u32) -> u32
    requires falls { Falls up.old.items }
    requires within { name < vec_len up.old }
    ensures root { result ≡ root_in up.old.items name }
    ensures top { get_or up.new.items result result ≡ result }
    ensures falls { Falls up.new.items }
    ensures roots { (x : ℕ) → root_in up.new.items x ≡ root_in up.old.items x }
    ensures within { result < vec_len up.old }
    ensures len { vec_len up.new ≡ vec_len up.old }
    ensures capacity { vec_capacity up.new ≡ vec_capacity up.old }
{
    let mut at = name;
    'climbing: loop {
        let first = over(up, at);
        if first == at {
            return at;
        }
        let second = over(up, first);
        put(up, at, second);
        at = second;
    }
}

/// Numbers the roots in ascending order; a name that was joined has its root's number. The list becomes
/// that of the numbers.
fn number_roots(up: Vec<u32>, made: u32) -> RootNumbers
    requires falls { Falls up.items }
    requires made { vec_len up ≡ made }
    ensures len { vec_len result.numbers ≡ made }
    ensures numbers { (x : ℕ) → x < made → get_or result.numbers.items x 0 ≡ number_of (root_in up.items) x }
    ensures count { result.count ≡ roots_below (root_in up.items) made }
{
    let mut numbers = up;
    let mut count = 0u32;
    for name in 0..made {
        let first = over(&numbers, name);
        if first == name {
            put(&mut numbers, name, count);
            count += 1;
        } else {
            let number = over(&numbers, first);
            put(&mut numbers, name, number);
        }
    }
    RootNumbers { numbers, count }
}

impl Model for JoinedNames {
    ghost use Rattle.std.specs.Prelude.{◌≡◌, vec_capacity, false};
    ghost use Rattle.eb_rebuild.specs.JoinedNames.{JoinedValue, Falls, IsPlain};

    ghost Value = { JoinedValue };

    ghost view = { λ n. record { up = n.up.items; room = vec_capacity n.up } };

    ghost invariant = { λ n. Falls n.up.items × (n.is_joined ≡ false → IsPlain n.up.items) };
}

impl JoinedNames {
    ghost use Rattle.std.specs.Prelude.{◌*◌, [], ◌∷◌, ◌++◌, IfOk, IfSome, IfNone};
    ghost use Rattle.eb_rebuild.specs.JoinedNames.{joined};
    ghost use Rattle.drc_base.specs.declared.limits.TheConstants.{MAX_FACES as most_faces};

    /// No names, and room for three for each of `faces` faces.
    pub(crate) fn with_room(alloc: Global, faces: u32) -> Result<JoinedNames, Memory>
        requires { faces ≤ most_faces }
        ensures none { IfOk result (λ n. n.up ≡ []) }
        ensures room { IfOk result (λ n. n.room ≡ 3 * faces) }
    {
        Ok(JoinedNames {
            up: Vec::with_capacity(alloc, 3 * faces as usize)?,
            is_joined: false,
        })
    }

    /// Makes the next name, which is how many there are, and joined to none.
    #[inline(always)]
    pub(crate) fn add(&mut self, name: u32)
        requires next { name ≡ length self.old.up }
        requires room { length self.old.up < self.old.room }
        ensures up { self.new.up ≡ self.old.up ++ (name ∷ []) }
        ensures room { self.new.room ≡ self.old.room }
    {
        self.up.push_reserved(name);
    }

    /// Joins two names.
    #[inline(always)]
    pub(crate) fn join(&mut self, a: u32, b: u32)
        requires first { a < length self.old.up }
        requires second { b < length self.old.up }
        ensures len { length self.new.up ≡ length self.old.up }
        ensures falls { Falls self.new.up }
        ensures roots { (x : ℕ) → root_in self.new.up x ≡ joined (root_in self.old.up) a b x }
        ensures room { self.new.room ≡ self.old.room }
    {
        let r = find(&mut self.up, a);
        let s = find(&mut self.up, b);
        put(&mut self.up, r.max(s), r.min(s));
        self.is_joined = true;
    }

    /// The numbers of the names, of which `made` were made: roots are numbered in ascending order, and a name
    /// that was joined has its root's number. None where no names were joined: then each name is its own
    /// number.
    pub(crate) fn into_numbers(self, made: u32) -> Option<RootNumbers>
        requires { length self.up ≡ made }
        ensures len { IfSome result (λ n. vec_len n.numbers ≡ made) }
        ensures numbers { IfSome result (λ n. (x : ℕ) → x < made → get_or n.numbers.items x 0 ≡ number_of (root_in self.up) x) }
        ensures count { IfSome result (λ n. n.count ≡ roots_below (root_in self.up) made) }
        ensures none { IfNone result ((x : ℕ) → root_in self.up x ≡ x) }
    {
        if self.is_joined {
            Some(number_roots(self.up, made))
        } else {
            None
        }
    }
}
