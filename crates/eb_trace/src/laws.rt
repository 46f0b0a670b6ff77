//! What holds of the definitions themselves.

ghost use Rattle.eb_trace.specs.Rebuilt.{ClosesLast, CountsWord, EachStepReads, PassesFronts, ReadsWord, RebuildsWord, RefusesFewer};
ghost use Rattle.eb_trace.specs.Kept.{WalkCarries, WalkIsCounted, WalkIsKept, WalkIsReadable, WalkNeedsAll, WalkOrders, WalkPassesFronts};
ghost use Rattle.eb_trace.specs.Events.{WalkNotesSplits};
ghost use Rattle.eb_trace.specs.Vertices.{FaceAddsThree, GluingJoins, LabelsAreFans, NothingHasNone, RenumberedAlike};

/// Reverse decoding reads every readable table from its word: each symbol takes the state before its
/// face, read from the table, to the state after it, and so from the start, with the table's events, any
/// number of symbols of the word lead to the state after so many. The start bits take the state after
/// all of them to the one with the table built. The whole run over the word, with its events and start
/// bits, meets no fault and ends there; and where the faces have three fans each and no fewer vertices
/// are declared than are made, it passes the tests at the end too; fewer are refused. The vertices made
/// are as many as the fans of the table and the S of the word together. This is the contract of a call
/// that does nothing.
pub fn readable_is_rebuilt()
    ensures steps { EachStepReads }
    ensures fronts { PassesFronts }
    ensures closes { ClosesLast }
    ensures run { ReadsWord }
    ensures rebuilt { RebuildsWord }
    ensures refused { RefusesFewer }
    ensures counted { CountsWord }
{}

/// The walk keeps the surface. Of any surface whose faces have three fans each, with any number of
/// components, holes, handles and cut vertices: the order of decoding lists each face once, turned by
/// 0, 1 or 2; there is one surface in that order, with as many fans; it is readable from the walk's
/// word, and determines the walk's events and start bits; each event is of a symbol that met an earlier
/// S, they come by rising sources, the right one of a symbol first, and no S has two; reverse decoding
/// that is fed the word and the events is after each symbol in the state that this surface determines;
/// the vertices that it makes are as many as the fans of the surface and the S of the word together;
/// and reverse decoding of all these, with no fewer vertices declared than that, meets no fault and
/// gives the surface in that order. Fewer are refused, with a fault that says how many it takes. This
/// is the contract of a call that does nothing.
pub fn walk_keeps_surface()
    ensures order { WalkOrders }
    ensures carried { WalkCarries }
    ensures told { WalkIsReadable }
    ensures splits { WalkNotesSplits }
    ensures fronts { WalkPassesFronts }
    ensures counted { WalkIsCounted }
    ensures kept { WalkIsKept }
    ensures needed { WalkNeedsAll }
{}

/// The number of fans, which is the number of vertices of a surface: none without faces, three more for a
/// face with no side glued, at most two fewer for a gluing of two sides (one for each of the two meetings
/// of their ends that makes one fan of two), as many as there are labels where the vertices are labelled,
/// and the same under new numbers of the faces. This is the contract of a call that does nothing.
pub fn fans_are_counted()
    ensures none { NothingHasNone }
    ensures face { FaceAddsThree }
    ensures gluing { GluingJoins }
    ensures labels { LabelsAreFans }
    ensures renumbered { RenumberedAlike }
{}
