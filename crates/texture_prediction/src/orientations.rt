//! Orientations and the bits that say them, in place: a bit that is set keeps the orientation before, another one changes it.

ghost use Rattle.std.specs.Prelude.{◌≡◌};
ghost use Rattle.texture_prediction.specs.Orientations.{bits_of, kept, orientations_of};

/// The orientation that a bit says behind another one.
fn kept(before: bool, bit: bool) -> bool
    ensures { result ≡ kept before bit }
{
    if bit { before } else { !before }
}

/// Turns bits into the orientations that they say, in place; the one before the first is set (Draco 1.5.5,
/// MeshPredictionSchemeTexCoordsPortableDecoder).
pub fn bits_to_orientations(flags: &mut [bool])
    ensures { flags.new ≡ orientations_of flags.old }
{
    let mut before = true;
    for i in 0..flags.len() {
        before = kept(before, flags[i]);
        flags[i] = before;
    }
}

/// Turns orientations into the bits that say them, in place; the one before the first is set (Draco 1.5.5,
/// MeshPredictionSchemeTexCoordsPortableEncoder).
pub fn orientations_to_bits(flags: &mut [bool])
    ensures { flags.new ≡ bits_of flags.old }
{
    let mut before = true;
    for i in 0..flags.len() {
        let orientation = flags[i];
        flags[i] = orientation == before;
        before = orientation;
    }
}
