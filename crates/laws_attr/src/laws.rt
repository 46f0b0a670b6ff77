//! What holds of the definitions themselves.

ghost use Rattle.laws_attr.specs.Laws.{FlagsAreRead, IntegersAreRead, RangesAreRead, ValuesAreRead};
ghost use Rattle.laws_attr.specs.Laws.{EndsAreRead, HeadsAreRead, DecoderValuesAreRead};

/// A list of flags, integers of 32 bits, and a range in which corrections can wrap, as they are written, are
/// read as what they were made of, whatever follows them. This is the contract of a call that does nothing.
pub fn parts_are_read()
    ensures flags { FlagsAreRead }
    ensures integers { IntegersAreRead }
    ensures ranges { RangesAreRead }
{}

/// The values of an attribute, as they are written by any prediction that they may have, octahedral values and texture coordinates too,
/// are read as these values, wherever they begin and whatever follows them, where those of all attributes are within their limit; on a
/// surface, where no list of flags over it has more of them than there are corners. Octahedral values, and texture coordinates that are
/// predicted from positions, are read in a profile that has them, behind the positions that they were written behind. This is the contract
/// of a call that does nothing.
pub fn values_are_read()
    ensures { ValuesAreRead }
{}

/// The heads of decoders, as they are written, are read as these heads without what stands at the end of the decoders, in
/// each profile that has their codings, and what stands there for a head, its quantisation or the bits of its square, is
/// read as its own, whatever follows them. This is the contract of a call that does nothing.
pub fn heads_are_read()
    ensures heads { HeadsAreRead }
    ensures ends { EndsAreRead }
{}

/// The values of a decoder and what stands at its end, as they are written, are read as these, wherever they begin and whatever follows
/// them, where the values of all decoders are within their limit; on a surface, where no list of flags over it has more of them than there
/// are corners. Where octahedral values are among them, or texture coordinates that are predicted from positions, they are read in a profile
/// that has them, behind the positions that they were written behind. This is the contract of a call that does nothing.
pub fn decoders_are_read()
    ensures { DecoderValuesAreRead }
{}
