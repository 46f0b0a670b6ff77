//! What holds of the definitions themselves.

ghost use Rattle.walk_order.specs.OfSurface.{EntriesAreOfSurface, LabelsAreOne, OrdersAreOfSurface, SurfaceIsLabelled};
ghost use Rattle.walk_order.specs.Laws.{DepthFirstListsClasses, PredictionDegreeListsClasses, VisitsAreRelation, WalkIsRelation};

/// Both walks are the relations that their rules define, one sentence each. With as much fuel as there are
/// unvisited faces, the depth-first recursion from a corner leads from one state to another exactly where
/// the relation does, and so do the visits by prediction degree from a corner of an unvisited face. This is
/// the contract of a call that does nothing.
pub fn walks_are_relations()
    ensures depth_first { WalkIsRelation }
    ensures prediction_degree { VisitsAreRelation }
{}

/// The entries of both orders are a list of the classes, for every table with labelled fans: each class is
/// that of one entry, and of no other. This is the contract of a call that does nothing.
pub fn orders_list_classes()
    ensures depth_first { DepthFirstListsClasses }
    ensures prediction_degree { PredictionDegreeListsClasses }
{}

/// A surface has one labelling of its fans: the label of a corner is the place of its fan among the least
/// corners of all fans. So both orders are functions of the surface alone, whatever labels they were made
/// from, and so are the entries of corners: that of a corner is the first whose corner is in its fan. This is
/// the contract of a call that does nothing.
pub fn orders_are_of_surfaces()
    ensures labelled { SurfaceIsLabelled }
    ensures one { LabelsAreOne }
    ensures orders { OrdersAreOfSurface }
    ensures entries { EntriesAreOfSurface }
{}
