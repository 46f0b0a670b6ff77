//! What holds of the definitions themselves.

ghost use Rattle.seams.specs.Laws.{ClassIsFan, ClassEnds, ClassInFan, UncutIsFan, CutIsGluing, SeamsAreAlike, SeamsAreFlags, ClassHasOneValue};
ghost use Rattle.seams.specs.Laws.{ListCutsAlike, ToldAreFlags, BitsTellFlags, BlockTellsFlags};

/// A class, which chains of swings over glued sides that are no seam connect, is a fan of the surface cut
/// at its seams, and lies in a fan of the surface; a boundary or seam meets it exactly where that fan meets a
/// boundary; without seams it is a fan. The surface cut at flags that are alike on both sides of each pair
/// is a surface. This is the contract of a call that does nothing.
pub fn classes_are_chains()
    ensures fan { ClassIsFan }
    ensures ends { ClassEnds }
    ensures within { ClassInFan }
    ensures uncut { UncutIsFan }
    ensures gluing { CutIsGluing }
{}

/// The seams that a mesh has for an attribute are alike on both sides of each pair, and boundaries are
/// seams; and over the others the attribute goes on: the corners of one class have one value. This is the
/// contract of a call that does nothing.
pub fn classes_have_one_value()
    ensures alike { SeamsAreAlike }
    ensures flags { SeamsAreFlags }
    ensures value { ClassHasOneValue }
{}

/// Seam bits give flags, whatever the bits are; those of given flags give these again, and so does a block
/// that has them first; a list of flags cuts a surface as what it was made of does. This is the contract of
/// a call that does nothing.
pub fn bits_tell_seams()
    ensures flags { ToldAreFlags }
    ensures bits { BitsTellFlags }
    ensures block { BlockTellsFlags }
    ensures list { ListCutsAlike }
{}
