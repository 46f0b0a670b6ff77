//! Where output bytes go.

ghost use Rattle.std.specs.Prelude.{◌≡◌, ◌<◌, ◌≤◌, ℕ, List, Option, Bool, length, IfOk};
ghost use Rattle.std.specs.Io.KnownBytes.{WriteAppends, Keeps};
ghost use Rattle.drc_base.specs.Counters.{HasCause};
ghost use Rattle.drc_base.specs.Sinks.{finished_after_put, finished_after_finish};

use crate::faults::Failed;

/// A sink of bytes that may fail. Contracts see the bytes held, where the sink shows them, whether
/// it was finished since the last bytes came, and how often it failed; the count stands at the last
/// value of u64.
pub trait Sink {
    ghost held: { Self → Option (List ℕ) };

    ghost finished: { Self → Bool };

    ghost faults: { Self → ℕ };

    /// How often the sink failed so far.
    fn faults(&self) -> u64
        ensures { result ≡ faults self.now };

    /// Appends a prefix of `piece`, at least one byte, and answers how many bytes it was.
    /// `Failed` comes only where the count of failures rose, and then nothing was appended.
    fn put(&mut self, piece: &[u8]) -> Result<usize, Failed>
        requires { 0 < length piece.now }
        ensures some { IfOk result (λ n. 0 < n) }
        ensures bound { IfOk result (λ n. n ≤ length piece.now) }
        ensures bytes { WriteAppends (held self.old) (held self.new) result piece.now }
        ensures finished { finished self.new ≡ finished_after_put (finished self.old) result }
        ensures cause { HasCause (faults self.old) (faults self.new) result };

    /// Passes on what is held back. `Failed` comes only where the count of failures rose; the bytes
    /// held stay in either case.
    fn finish(&mut self) -> Result<(), Failed>
        ensures bytes { Keeps (held self.old) (held self.new) }
        ensures finished { finished self.new ≡ finished_after_finish (finished self.old) result }
        ensures cause { HasCause (faults self.old) (faults self.new) result };
}
