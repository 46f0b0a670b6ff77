//! What holds of the definitions themselves.

ghost use Rattle.eb_machine.specs.Shown.{SymbolsAgree, ClosesAgree, EndsAgree, RunsAgree, StopsAgree, OneRowEach, TopIsFree, MadeAreNamesAndSplits};
ghost use Rattle.eb_machine.specs.Closes.{SymbolsCloseNone, CloseTakesOne, AllAreClosed, FinishKeepsState, RunClosesAll};
ghost use Rattle.eb_machine.specs.OneFaceMore.{OneFaceMore};

/// Names are fans: the machine that names its vertices, as the format describes it, and the machine
/// whose vertices are fans give the same answers. Each call of both, from a named state and the state
/// that it shows, has the same fault, or gives a named state that shows the other again; and so has
/// each whole run, and each run that stops after any symbols and any closes. This is the contract of a
/// call that does nothing.
pub fn names_are_fans()
    ensures symbols { SymbolsAgree }
    ensures closes { ClosesAgree }
    ensures ends { EndsAgree }
    ensures runs { RunsAgree }
    ensures stops { StopsAgree }
{}

/// One face more: where a face is built, with some of its sides glued to free sides, its corners named
/// as those that they meet, and no names made one but those of corners that come together, names are
/// fans again. Each rule of the machine that names its vertices is such a step. This is the contract of
/// a call that does nothing.
pub fn one_face_more_keeps_names()
    ensures { OneFaceMore }
{}

/// Each vertex starts at most one row and ends at most one, and after each symbol the top side is free.
/// This is the contract of a call that does nothing.
pub fn rows_are_one_each()
    ensures rows { OneRowEach }
    ensures top { TopIsFree }
{}

/// How many vertices are made: in each state that a run reaches, after any symbols and any closes, as
/// many as the distinct names in the triangles, and one more for each S taken, which took a name away.
/// This is the contract of a call that does nothing.
pub fn made_are_names_and_splits()
    ensures { MadeAreNamesAndSplits }
{}

/// How symbols and closes count: a symbol builds one face and closes no side; a close takes only the top
/// side off and counts it; where as many sides are closed as wait, none waits after that; the tests at
/// the end change nothing. So a whole run that meets no fault closes exactly the sides that wait after its
/// symbols. This is the contract of a call that does nothing.
pub fn closes_take_one_side_each()
    ensures symbols { SymbolsCloseNone }
    ensures close { CloseTakesOne }
    ensures all { AllAreClosed }
    ensures finish { FinishKeepsState }
    ensures run { RunClosesAll }
{}
