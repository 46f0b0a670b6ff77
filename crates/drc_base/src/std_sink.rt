//! A sink over one of std's writers.

ghost use Rattle.std.specs.Prelude.{◌≡◌, false};

use crate::faults::Failed;
use crate::sinks::Sink;
use std::io::Write;

/// A sink over a writer of std, such as standard output. An error of the writer counts as a
/// failure, and so does a write of no byte. Its bytes are known where the writer shows them, as
/// over memory. What a real file or pipe keeps isn't promised by any clause.
#[derive(Drop)]
pub struct StdSink<W: Write> {
    writer: W,
    faults: u64,
    finished: bool,
}

impl<W: Write> StdSink<W> {
    /// A sink into `writer`.
    pub fn new(writer: W) -> StdSink<W>
        ensures held { ⟦<StdSink<W> as Sink>⟧.held result ≡ W.contents writer }
        ensures finished { ⟦<StdSink<W> as Sink>⟧.finished result ≡ false }
        ensures faults { ⟦<StdSink<W> as Sink>⟧.faults result ≡ 0 }
    {
        StdSink {
            writer,
            faults: 0,
            finished: false,
        }
    }
}

impl<W: Write> Sink for StdSink<W> {
    ghost held = { λ s. W.contents s.writer };

    ghost finished = { λ s. s.finished };

    ghost faults = { λ s. s.faults };

    fn faults(&self) -> u64 {
        self.faults
    }

    fn put(&mut self, piece: &[u8]) -> Result<usize, Failed> {
        match self.writer.write(piece) {
            Ok(0) | Err(_) => {
                self.faults = self.faults.saturating_add(1);
                Err(Failed)
            }
            Ok(n) => {
                self.finished = false;
                Ok(n)
            }
        }
    }

    fn finish(&mut self) -> Result<(), Failed> {
        match self.writer.flush() {
            Ok(()) => {
                self.finished = true;
                Ok(())
            }
            Err(_) => {
                self.faults = self.faults.saturating_add(1);
                Err(Failed)
            }
        }
    }
}
