//! A sink in memory, with bounded room and failures on demand.

ghost use Rattle.std.specs.Prelude.{◌≡◌, ◌<◌, ◌≤◌, [], length, false, Some, Ok, Err, IsErr, IfOk, IsTrue, ◌↔◌, ◌++◌, take};
ghost use Rattle.std.specs.Io.KnownBytes.{WriteAppends, Keeps};
ghost use Rattle.drc_base.specs.Counters.{HasCause};
ghost use Rattle.drc_base.specs.Sinks.{finished_after_put, finished_after_finish};
ghost use Rattle.drc_base.specs.InMemory.{is_failing, is_put_failing, put_length, after_put, after_finish};

use crate::faults::{Failed, Memory};
use crate::sinks::Sink;
use std::alloc::Global;
use std::marker::Model;

/// A sink into memory whose room is reserved when it is made. It keeps a bounded piece a call, fails
/// at the calls whose numbers it is given, `put` and `finish` counted together, and fails at a `put`
/// where no room is left.
#[derive(Drop)]
pub struct MemSink {
    bytes: Vec<u8>,
    piece: usize,
    room: usize,
    fails: Vec<u64>,
    calls: u64,
    finished: bool,
    faults: u64,
}

impl Model for MemSink {
    ghost use Rattle.std.specs.Prelude.{◌≤◌, ◌<◌, vec_len, vec_capacity};
    ghost use Rattle.drc_base.specs.InMemory.{MemSinkState};

    ghost Value = { MemSinkState };

    ghost view = { λ s. record {
      held = s.bytes.items;
      piece = s.piece;
      room = s.room;
      fails = s.fails.items;
      calls = s.calls;
      finished = s.finished;
      faults = s.faults;
    } };

    ghost invariant = { λ s. (vec_len s.bytes ≤ s.room) × (s.room ≤ vec_capacity s.bytes) × (0 < s.piece) };
}

impl MemSink {
    /// A sink that holds no bytes, has room for `room` bytes and keeps at most `piece` bytes a call.
    /// Call number i, from 0, fails where `fails` has i. No later call takes memory.
    pub fn new(alloc: Global, piece: usize, room: usize, fails: Vec<u64>) -> Result<MemSink, Memory>
        requires { 0 < piece }
        ensures { IfOk result (λ s. s ≡ record {
          held = [];
          piece = piece;
          room = room;
          fails = fails.items;
          calls = 0;
          finished = false;
          faults = 0;
        }) }
    {
        let bytes = Vec::with_capacity(alloc, room)?;
        Ok(MemSink {
            bytes,
            piece,
            room,
            fails,
            calls: 0,
            finished: false,
            faults: 0,
        })
    }

    /// The bytes held, in the order in which they came.
    pub fn held(&self) -> &[u8]
        ensures { result.now ≡ self.now.held }
    {
        self.bytes.as_slice()
    }
}

impl Sink for MemSink {
    ghost held = { λ s. Some s.held };

    ghost finished = { λ s. s.finished };

    ghost faults = { λ s. s.faults };

    fn faults(&self) -> u64 {
        self.faults
    }

    #[tactic(auto, unfolding(crate::specs::InMemory::after_put))]
    fn put(&mut self, piece: &[u8]) -> Result<usize, Failed>
        requires { 0 < length piece.now }
        ensures some { IfOk result (λ n. 0 < n) }
        ensures bound { IfOk result (λ n. n ≤ length piece.now) }
        ensures bytes { WriteAppends (Some self.old.held) (Some self.new.held) result piece.now }
        ensures finished { self.new.finished ≡ finished_after_put self.old.finished result }
        ensures cause { HasCause self.old.faults self.new.faults result }
        ensures failed { IsErr result ↔ IsTrue (is_put_failing self.old) }
        ensures count { IfOk result (λ n. n ≡ put_length self.old (length piece.now)) }
        ensures after { self.new ≡ after_put self.old piece.now }
    {
        let call = self.calls;
        self.calls = call.saturating_add(1);
        let left = self.room - self.bytes.len();
        if self.fails.contains(&call) || left == 0 {
            self.faults = self.faults.saturating_add(1);
            return Err(Failed);
        }
        let n = self.piece.min(piece.len()).min(left);
        self.bytes.extend_from_slice(&piece[..n]).unwrap();
        self.finished = false;
        Ok(n)
    }

    #[tactic(auto, unfolding(crate::specs::InMemory::after_finish))]
    fn finish(&mut self) -> Result<(), Failed>
        ensures bytes { Keeps (Some self.old.held) (Some self.new.held) }
        ensures finished { self.new.finished ≡ finished_after_finish self.old.finished result }
        ensures cause { HasCause self.old.faults self.new.faults result }
        ensures failed { IsErr result ↔ IsTrue (is_failing self.old.fails self.old.calls) }
        ensures after { self.new ≡ after_finish self.old }
    {
        let call = self.calls;
        self.calls = call.saturating_add(1);
        if self.fails.contains(&call) {
            self.faults = self.faults.saturating_add(1);
            return Err(Failed);
        }
        self.finished = true;
        Ok(())
    }
}
