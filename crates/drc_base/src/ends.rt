//! Why reading a whole input ends without its bytes.

use thiserror::Error;

/// Why reading a whole input ends without its bytes.
#[derive(Clone, Copy, Debug, PartialEq, Eq, Error)]
pub enum ReadEnd {
    /// The source failed.
    #[error("reading failed")]
    Failed,
    /// The source has more bytes than may be read.
    #[error("too many bytes")]
    TooLong,
    /// Out of memory.
    #[error("memory wanting")]
    Memory,
}
