//! Writing a whole output.

ghost use Rattle.std.specs.Prelude.{◌≡◌, ◌<◌, ◌≤◌, List, ℕ, true, length, OnOk};
ghost use Rattle.std.specs.Io.KnownBytes.{Appends};
ghost use Rattle.drc_base.specs.Counters.{HasCause};
ghost use Rattle.drc_base.specs.Sinks.{AppendsPrefix};

use crate::faults::Failed;
use crate::sinks::Sink;

/// Appends all of `bytes` to `out` and finishes it. `Failed` comes only where the sink's count of
/// failures rose, and then a prefix of `bytes` was appended. It takes no memory.
pub fn write_all<O: Sink>(out: &mut O, bytes: &[u8]) -> Result<(), Failed>
    ensures all { OnOk result (Appends (O.held out.old) (O.held out.new) bytes.now) }
    ensures finished { OnOk result (O.finished out.new ≡ true) }
    ensures prefix { AppendsPrefix (O.held out.old) (O.held out.new) bytes.now }
    ensures cause { HasCause (O.faults out.old) (O.faults out.new) result }
{
    let mut rest = bytes;
    while !rest.is_empty() {
        let n = out.put(rest)?;
        rest = &rest[n..];
    }
    out.finish()
}
