//! What holds of the definitions themselves.

ghost use Rattle.shortest_blocks.specs.Laws.{JoinedLengthsHold, NoCutCostsLess, TheFirstOfTheShortest};

/// Joined bit lengths are as many as the bit lengths of groups, none is below its group's, and none is above 32. This is the contract of a
/// call that does nothing.
pub fn joined_lengths_hold()
    ensures { JoinedLengthsHold }
{}

/// No cut of the bit lengths that occur into runs, the last of which ends with the greatest, costs less than the one by which they
/// are joined. This is the contract of a call that does nothing.
pub fn no_cut_costs_less()
    ensures { NoCutCostsLess }
{}

/// The shortest bytes are one of the codings, none is shorter, and all before it are longer. This is the contract of a call that does
/// nothing.
pub fn the_first_of_the_shortest()
    ensures { TheFirstOfTheShortest }
{}
