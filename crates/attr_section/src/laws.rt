//! What holds of the definitions themselves.

ghost use Rattle.attr_section.specs.ValueLaws.{PredictionsAreAccepted, FlagsAreFew};

/// In a sequential stream values have a prediction that needs no surface; a profile has no values with a
/// prediction that came later. This is the contract of a call that does nothing.
pub fn predictions_are_accepted()
    ensures { PredictionsAreAccepted }
{}

/// Where no two entries of an order over a table stand at one vertex, as in the order of a traversal, no list
/// of flags that is written has more of them than there are corners, so reading accepts it. This is the
/// contract of a call that does nothing.
pub fn flags_are_few()
    ensures { FlagsAreFew }
{}
