//! How connectivity is coded.

/// The way in which connectivity is coded.
#[derive(Clone, Copy, Debug, PartialEq, Eq)]
pub enum Method {
    /// Sequential: the faces as indices, or a cloud of points.
    Seq,
    /// Edgebreaker with standard symbols.
    Eb,
    /// Edgebreaker with symbols by valence contexts.
    Valence,
}
