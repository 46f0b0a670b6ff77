//! What holds of the definitions themselves.

ghost use Rattle.rans_binary.specs.BitLaws.{BitsAreNumbered, BitsGoOn, NumbersGoOn};

/// The bits of a block by their numbers, counted from 0: bit k is item k of the bits; the bits behind the
/// first m have the numbers from m on; and these follow the first m. This is the contract of a call that
/// does nothing.
pub fn bits_have_numbers()
    ensures numbered { BitsAreNumbered }
    ensures behind { NumbersGoOn }
    ensures first { BitsGoOn }
{}
