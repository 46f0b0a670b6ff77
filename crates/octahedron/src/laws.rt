//! What holds of the definitions themselves.

ghost use Rattle.octahedron.specs.Laws.{FlippedTwiceIsCanonical, CanonicalStays, CorrectionsRestore, DifferencePredicts};

/// A point that is flipped twice is its canonical spelling, everywhere in the square, and that spelling is its own. This is the
/// contract of a call that does nothing.
pub fn flip_twice()
    ensures canonical { FlippedTwiceIsCanonical }
    ensures stays { CanonicalStays }
{}

/// Whatever function of the values before predicts values of the square from such, the corrections of values in canonical spelling
/// restore these values; the difference does. This is the contract of a call that does nothing.
pub fn corrections_restore()
    ensures restore { CorrectionsRestore }
    ensures difference { DifferencePredicts }
{}
