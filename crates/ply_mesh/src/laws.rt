//! What holds of the definitions themselves.

ghost use Rattle.ply_mesh.specs.RoundTripLaw.{TextIsReadAgain};

/// The text of a geometry means that geometry: for every geometry whose rows and faces fit its heads,
/// within the limits, and whose heads have fields of their widths, reading its text gives it in each
/// profile that has its heads. This is the contract of a call that does nothing.
pub fn text_is_read_again()
    ensures { TextIsReadAgain }
{}
