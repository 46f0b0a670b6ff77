//! A source in memory, with failures on demand.

ghost use Rattle.std.specs.Prelude.{◌≡◌, ◌<◌, ◌≤◌, [], length, false, Some, Ok, Err, IsErr, IfOk, IsTrue, ◌↔◌, ◌++◌, take, drop, min};
ghost use Rattle.std.specs.Io.{ReadsAtMost};
ghost use Rattle.std.specs.Io.KnownBytes.{ReadConsumes};
ghost use Rattle.drc_base.specs.Counters.{HasCause};
ghost use Rattle.drc_base.specs.Sources.{is_end, given_after};
ghost use Rattle.drc_base.specs.InMemory.{is_failing, take_length, after_take};

use crate::faults::Failed;
use crate::sources::Source;
use std::marker::Model;

/// A source over bytes in memory. It gives a bounded piece a call, and fails at the calls whose
/// numbers it is given, so that every way of reading can be tried.
#[derive(Drop)]
pub struct MemSource {
    bytes: Vec<u8>,
    place: usize,
    piece: usize,
    fails: Vec<u64>,
    calls: u64,
    ended: bool,
    given: u64,
    faults: u64,
}

impl Model for MemSource {
    ghost use Rattle.std.specs.Prelude.{drop, ◌≤◌, ◌<◌, vec_len};
    ghost use Rattle.drc_base.specs.InMemory.{MemSourceState};

    ghost Value = { MemSourceState };

    ghost view = { λ s. record {
      rest = drop s.place s.bytes.items;
      piece = s.piece;
      fails = s.fails.items;
      calls = s.calls;
      ended = s.ended;
      given = s.given;
      faults = s.faults;
    } };

    ghost invariant = { λ s. (s.place ≤ vec_len s.bytes) × (0 < s.piece) };
}

impl MemSource {
    /// A source of `bytes` that gives at most `piece` bytes a call. Call number i, from 0, fails
    /// exactly where `fails` has i.
    pub fn new(bytes: Vec<u8>, piece: usize, fails: Vec<u64>) -> MemSource
        requires { 0 < piece }
        ensures { result ≡ record {
          rest = bytes.items;
          piece = piece;
          fails = fails.items;
          calls = 0;
          ended = false;
          given = 0;
          faults = 0;
        } }
    {
        MemSource {
            bytes,
            place: 0,
            piece,
            fails,
            calls: 0,
            ended: false,
            given: 0,
            faults: 0,
        }
    }
}

/// Copies a prefix of `from` to the beginning of `to`, at most `piece` bytes, and answers how many.
fn move_first(from: &[u8], piece: usize, to: &mut [u8]) -> usize
    ensures count { result ≡ min (min piece (length to.old)) (length from.now) }
    ensures prefix { take result to.new ≡ take result from.now }
{
    let n = piece.min(to.len()).min(from.len());
    to[..n].copy_from_slice(&from[..n]);
    n
}

impl Source for MemSource {
    ghost left = { λ s. Some s.rest };

    ghost ended = { λ s. s.ended };

    ghost given = { λ s. s.given };

    ghost faults = { λ s. s.faults };

    fn faults(&self) -> u64 {
        self.faults
    }

    #[tactic(auto, using(crate::proofs::Prefixes::taken_prefix), unfolding(crate::specs::InMemory::after_take))]
    fn take(&mut self, buf: &mut [u8]) -> Result<usize, Failed>
        requires { 0 < length buf.old }
        ensures bound { ReadsAtMost result buf.new }
        ensures bytes { ReadConsumes (Some self.old.rest) (Some self.new.rest) result buf.new }
        ensures ended { self.new.ended ≡ is_end result }
        ensures given { self.new.given ≡ given_after self.old.given result }
        ensures cause { HasCause self.old.faults self.new.faults result }
        ensures failed { IsErr result ↔ IsTrue (is_failing self.old.fails self.old.calls) }
        ensures count { IfOk result (λ n. n ≡ take_length self.old (length buf.old)) }
        ensures after { self.new ≡ after_take self.old (length buf.old) }
    {
        let call = self.calls;
        self.calls = call.saturating_add(1);
        if self.fails.contains(&call) {
            self.faults = self.faults.saturating_add(1);
            self.ended = false;
            return Err(Failed);
        }
        let n = move_first(&self.bytes[self.place..], self.piece, buf);
        self.place += n;
        self.given = self.given.saturating_add(n as u64);
        self.ended = n == 0;
        Ok(n)
    }
}
