//! What holds of orientations and their bits.

ghost use Rattle.texture_prediction.specs.Laws.{BitsComeBack, OrientationsComeBack};

/// Orientations come back from the bits that say them, and bits from the orientations that they say. This is the contract of a call
/// that does nothing.
pub fn orientations_come_back()
    ensures orientations { OrientationsComeBack }
    ensures bits { BitsComeBack }
{}
