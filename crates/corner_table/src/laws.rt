//! What holds of the definitions themselves.

ghost use Rattle.corner_table.specs.Pairs.{OneBitEach, BitSidesAreListed, BitSidesRise, PairsHaveTwoSides};
ghost use Rattle.corner_table.specs.Laws.{SwingsAreInverse, FansAreClasses, FanIsOneWalk, WalksEnd, FanIsClosedOrOpen, StartsOnce, EndsOnce};
ghost use Rattle.corner_table.specs.Laws.{GluingStays, FansStay, EndsMeet, FansJoin, NoOthersJoin};
ghost use Rattle.corner_table.specs.Laws.{PrefixIsGluing, SurroundedFillsGap, GapIsSurrounded, GapIsOneStep, FaceBringsItsPairs};
ghost use Rattle.corner_table.specs.Laws.{GluingIsCarried, FansAreCarried, FreeIsCarried, BoundaryIsCarried, ThreeFansAreCarried, ProperIsCarried};
ghost use Rattle.corner_table.specs.Laws.{OneFollows, OneComesBefore, LinksAreInverse, NewFaceIsLoop, OthersStay, GluingTakesOut, NewLoopIsLinked, TakenOutIsLinked};
ghost use Rattle.corner_table.specs.Laws.{TestFindsFan, TestFindsNoOther};

/// A swing to the left and one to the right are inverse. This is the contract of a call that does
/// nothing.
pub fn swings_are_inverse()
    ensures { SwingsAreInverse }
{}

/// A fan is one walk: corners of one fan are a class, two corners are in one fan exactly where swings to
/// the left lead from one of them to the other, and from any corner of a fan swings to the left lead to
/// its last corner, where it has one, and swings to the right to its first. This is the contract of a
/// call that does nothing.
pub fn a_fan_is_one_walk()
    ensures classes { FansAreClasses }
    ensures walk { FanIsOneWalk }
    ensures ends { WalksEnd }
{}

/// A fan is closed, all sides at its corners glued, or it is open, and has one first side, a free side
/// that starts there, and one last side, a free side that ends there. This is the contract of a call that
/// does nothing.
pub fn fans_end_once()
    ensures closed_or_open { FanIsClosedOrOpen }
    ensures one_first { StartsOnce }
    ensures one_last { EndsOnce }
{}

/// Gluing two free sides of two faces keeps a gluing, and each fan: the end of each of the two sides and
/// the start of the other become one fan, and what these two meetings don't bring together stays apart.
/// This is the contract of a call that does nothing.
pub fn gluing_joins_fans()
    ensures gluing { GluingStays }
    ensures stay { FansStay }
    ensures meet { EndsMeet }
    ensures join { FansJoin }
    ensures only { NoOthersJoin }
{}

/// A prefix of a surface, its faces below a number with the pairs among them, is a surface of its own. A
/// corner of a later face that they surround fills a gap between two of their free sides, one of which
/// starts where the other ends, and so comes after it round their boundary; a corner between two such sides
/// is surrounded; and one face more adds exactly its own pairs with the faces below it. This is the contract
/// of a call that does nothing.
pub fn prefixes_have_gaps()
    ensures gluing { PrefixIsGluing }
    ensures gap { SurroundedFillsGap }
    ensures boundary { GapIsOneStep }
    ensures surrounded { GapIsSurrounded }
    ensures more { FaceBringsItsPairs }
{}

/// New numbers of the faces, each face turned, keep the surface: its gluing, its fans, its free sides with
/// the ones that follow them and come before them, three fans to a face, and that it is proper. This is
/// the contract of a call that does nothing.
pub fn renumbering_keeps_fans()
    ensures gluing { GluingIsCarried }
    ensures fans { FansAreCarried }
    ensures free { FreeIsCarried }
    ensures boundary { BoundaryIsCarried }
    ensures three_fans { ThreeFansAreCarried }
    ensures proper { ProperIsCarried }
{}

/// The boundary is a permutation of the free sides: each is followed by one, and comes after one. The
/// sides of a new face are a loop of their own. A gluing takes its two sides out: what came before one is
/// followed by what came after the other, or, where the other was alone in its loop, by what came after
/// the one; and the lists of links are kept so by each step. This is the contract of a call that does
/// nothing.
pub fn links_are_a_permutation()
    ensures after { OneFollows }
    ensures before { OneComesBefore }
    ensures inverse { LinksAreInverse }
    ensures face { NewFaceIsLoop }
    ensures others { OthersStay }
    ensures gluing { GluingTakesOut }
    ensures face_linked { NewLoopIsLinked }
    ensures gluing_linked { TakenOutIsLinked }
{}

/// The test whether two corners meet, which walks both ways, finds exactly the corners of one fan. This is
/// the contract of a call that does nothing.
pub fn meeting_is_one_fan()
    ensures found { TestFindsFan }
    ensures only { TestFindsNoOther }
{}

/// The pairs of a surface, each counted at the one of its two sides whose face comes first: of a pair
/// exactly one side has a bit; the list of those sides has each of them once, by rising numbers, and no
/// others; and twice the pairs and the free sides together are three for each face. This is the contract
/// of a call that does nothing.
pub fn pairs_have_one_bit_each()
    ensures one { OneBitEach }
    ensures listed { BitSidesAreListed }
    ensures rise { BitSidesRise }
    ensures counted { PairsHaveTwoSides }
{}
