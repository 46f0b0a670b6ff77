//! What holds of the definitions themselves.

ghost use Rattle.predict.specs.Laws.{StepsRestore, PredictionsAreSteps, CorrectionsRestore, CorrectionsAreSmall, FlagsAreFew};
ghost use Rattle.predict.specs.Schemes.{PredictionsAreNamed};

/// Each prediction is found by its byte, by its number and by its word. This is the contract of a call
/// that does nothing.
pub fn predictions_are_named()
    ensures { PredictionsAreNamed }
{}

/// Whatever predicts by steps from the values before, and whatever flags it takes, the corrections of values that pass a test restore these
/// values with the same flags, if the way back of the move is undone behind values that pass. This is the contract of a call that does
/// nothing.
pub fn steps_restore<V, F, E>()
    ensures { StepsRestore V F E }
{}

/// Each prediction of the table restores by its steps, with wrap as the move: where each list has the flags that are needed of it, the
/// values of the function that foretells them, else `FlagsShort`. This is the contract of a call that does nothing.
pub fn predictions_are_steps()
    ensures { PredictionsAreSteps }
{}

/// Whatever function of the values before predicts them, the corrections of values of the range restore
/// these values, and are of at most half a span. This is the contract of a call that does nothing.
pub fn corrections_restore()
    ensures restore { CorrectionsRestore }
    ensures small { CorrectionsAreSmall }
{}

/// Where no two entries of an order stand at one vertex, as in the order of a traversal, the flags that are
/// needed of a list are no more than three times the faces. This is the contract of a call that does
/// nothing.
pub fn flags_are_few()
    ensures { FlagsAreFew }
{}
