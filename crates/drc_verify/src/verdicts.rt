//! What a check answers.

/// What a check answers: the first of these that applies. Rows, faces and points count from 0.
#[derive(Clone, Copy, Debug, PartialEq, Eq)]
pub enum Verdict {
    /// The stream's geometry is the one that was given, by the rows.
    Same,
    /// The heads of attributes differ, or the rows and both geometries aren't all of meshes or all of
    /// clouds.
    Heads,
    /// There are so many rows, and not as many faces (points of clouds) in each geometry.
    Rows(u64),
    /// The first row that is wrong: it names nothing that is there, or what an earlier row names, or its
    /// turn is above 2 (above 0 of a cloud), or a corner (the point) has other integers.
    Row(u64),
    /// The first side 3f + k of the stream whose partner, or lack of one, is another.
    Pair(u64),
}
