//! What holds of the definitions themselves.

ghost use Rattle.octahedral_values.specs.Laws.{CorrectionsRestore, DifferencePredicts, NormalsPredict, RestoredAreAsMany};

/// Whatever step predicts values of the square behind such, the corrections of values in canonical spelling restore these values with the
/// same flips; both steps do. This is the contract of a call that does nothing.
pub fn corrections_restore()
    ensures restore { CorrectionsRestore }
    ensures difference { DifferencePredicts }
    ensures normals { NormalsPredict }
{}

/// Whatever step predicts, as many integers are restored as there are corrections. This is the contract of a call that does nothing.
pub fn restored_are_as_many()
    ensures { RestoredAreAsMany }
{}
