//! A source over one of std's readers.

ghost use Rattle.std.specs.Prelude.{◌≡◌, false};

use crate::faults::Failed;
use crate::sources::Source;
use std::io::Read;

/// A source over a reader of std, such as standard input. An error of the reader, an interruption
/// too, counts as a failure. Its bytes are known where the reader shows them, as over memory. What
/// a real file or pipe gives isn't promised by any clause.
#[derive(Drop)]
pub struct StdSource<R: Read> {
    reader: R,
    faults: u64,
    given: u64,
    ended: bool,
}

impl<R: Read> StdSource<R> {
    /// A source of what `reader` has left.
    pub fn new(reader: R) -> StdSource<R>
        ensures left { ⟦<StdSource<R> as Source>⟧.left result ≡ R.remaining reader }
        ensures ended { ⟦<StdSource<R> as Source>⟧.ended result ≡ false }
        ensures given { ⟦<StdSource<R> as Source>⟧.given result ≡ 0 }
        ensures faults { ⟦<StdSource<R> as Source>⟧.faults result ≡ 0 }
    {
        StdSource {
            reader,
            faults: 0,
            given: 0,
            ended: false,
        }
    }
}

impl<R: Read> Source for StdSource<R> {
    ghost left = { λ s. R.remaining s.reader };

    ghost ended = { λ s. s.ended };

    ghost given = { λ s. s.given };

    ghost faults = { λ s. s.faults };

    fn faults(&self) -> u64 {
        self.faults
    }

    fn take(&mut self, buf: &mut [u8]) -> Result<usize, Failed> {
        match self.reader.read(buf) {
            Ok(n) => {
                self.given = self.given.saturating_add(n as u64);
                self.ended = n == 0;
                Ok(n)
            }
            Err(_) => {
                self.faults = self.faults.saturating_add(1);
                self.ended = false;
                Err(Failed)
            }
        }
    }
}
