//! A text in memory as a sink.

ghost use Rattle.std.specs.Prelude.{◌≡◌, [], Some, false};

use drc_base::{Failed, Sink};
use std::alloc::Global;

/// A text that grows by what is put to it. It fails only when out of memory, and finishing it never
/// fails.
#[derive(Drop)]
pub(crate) struct TextSink {
    text: Vec<u8>,
    finished: bool,
    faults: u64,
}

impl TextSink {
    /// An empty text.
    pub(crate) fn new(alloc: Global) -> TextSink
        ensures { result.text.items ≡ [] }
    {
        TextSink {
            text: Vec::new(alloc),
            finished: false,
            faults: 0,
        }
    }

    /// The text so far. It takes no memory.
    pub(crate) fn into_text(self) -> Vec<u8>
        ensures { result.items ≡ self.text.items }
    {
        self.text
    }
}

impl Sink for TextSink {
    ghost held = { λ s. Some s.text.items };

    ghost finished = { λ s. s.finished };

    ghost faults = { λ s. s.faults };

    fn faults(&self) -> u64 {
        self.faults
    }

    fn put(&mut self, piece: &[u8]) -> Result<usize, Failed> {
        match self.text.extend_from_slice(piece) {
            Ok(()) => {
                self.finished = false;
                Ok(piece.len())
            }
            Err(_) => {
                self.faults = self.faults.saturating_add(1);
                Err(Failed)
            }
        }
    }

    fn finish(&mut self) -> Result<(), Failed> {
        self.finished = true;
        Ok(())
    }
}
