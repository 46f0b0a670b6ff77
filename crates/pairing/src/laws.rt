//! What holds of the definitions themselves.

ghost use Rattle.pairing.specs.CarriedPairs.{InvertedLeadsBack, CarriedIsTheOne, CarriedIsProper, FitIsCarried, MeshFitIsCarried};

/// New numbers of the faces keep the pairs of a surface: what carries a side to its old number is taken
/// back by the inverted rows; the carried surface is the one with the old pairs under the new numbers;
/// it is proper where the old one is, and its pairs fit the mesh with its faces in the new order where
/// the old ones fit the old mesh. This is the contract of a call that does nothing.
pub fn carrying_keeps_pairs()
    ensures back { InvertedLeadsBack }
    ensures one { CarriedIsTheOne }
    ensures proper { CarriedIsProper }
    ensures fit { FitIsCarried }
    ensures mesh { MeshFitIsCarried }
{}
