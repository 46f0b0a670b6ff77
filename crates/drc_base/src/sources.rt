//! Where input bytes come from.

ghost use Rattle.std.specs.Prelude.{◌≡◌, ◌<◌, ℕ, List, Option, Bool, length};
ghost use Rattle.std.specs.Io.{ReadsAtMost};
ghost use Rattle.std.specs.Io.KnownBytes.{ReadConsumes};
ghost use Rattle.drc_base.specs.Counters.{HasCause};
ghost use Rattle.drc_base.specs.Sources.{is_end, given_after};

use crate::faults::Failed;

/// A source of bytes that may fail. Contracts see the bytes left, where the source shows them,
/// whether its last answer was that none is left, how many bytes it gave so far, and how often it
/// failed; the two counts stand at the last value of u64.
pub trait Source {
    ghost left: { Self → Option (List ℕ) };

    ghost ended: { Self → Bool };

    ghost given: { Self → ℕ };

    ghost faults: { Self → ℕ };

    /// How often the source failed so far.
    fn faults(&self) -> u64
        ensures { result ≡ faults self.now };

    /// Moves the next bytes to the beginning of `buf`, and answers how many: 0 exactly where none is
    /// left. `Failed` comes only where the count of failures rose, and then nothing was taken.
    fn take(&mut self, buf: &mut [u8]) -> Result<usize, Failed>
        requires { 0 < length buf.old }
        ensures bound { ReadsAtMost result buf.new }
        ensures bytes { ReadConsumes (left self.old) (left self.new) result buf.new }
        ensures ended { ended self.new ≡ is_end result }
        ensures given { given self.new ≡ given_after (given self.old) result }
        ensures cause { HasCause (faults self.old) (faults self.new) result };
}
