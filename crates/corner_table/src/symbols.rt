//! What the encoder's walk over a surface notes, and the decoder is fed.

/// What one step of the walk finds: how the new face lies to what was visited before (the symbols of
/// Edgebreaker, Rossignac 1999).
#[derive(Clone, Copy, Debug, PartialEq, Eq)]
pub enum Symbol {
    /// The tip is new: a vertex inside, and no face at it is visited.
    C,
    /// The tip isn't new: it is on a boundary, or a visited face has it. Both other faces are
    /// unvisited: the walk splits.
    S,
    /// The left face alone is visited.
    L,
    /// The right face alone is visited.
    R,
    /// Both other faces are visited: a branch ends.
    E,
}

/// A split event (Isenburg and Snoeyink 2001): the left side of an S was met from another branch
/// before its turn. Numbers count symbols in the encoder's order, from 0.
#[derive(Clone, Copy, Debug, PartialEq, Eq)]
pub struct Event {
    /// The symbol that met the side: an L, R or E.
    pub source: u32,
    /// The S whose left side was met.
    pub split: u32,
    /// Whether the meeting side is that of the corner after the walk's corner; else it is that of
    /// the corner before.
    pub right: bool,
}
