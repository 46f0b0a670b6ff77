//! What holds of the definitions themselves.

ghost use Rattle.laws_order.specs.Laws.{RuleLeadsToNoOther, RuleLeadsToOrder};
ghost use Rattle.laws_order.specs.Rounds.{RoundHasFuel, RoundIsFan};

/// The order of entries by prediction degree is the one that its rule leads to, sentence by sentence, on
/// every surface with labelled fans: from the start the rule leads to an end with these entries, and to
/// none with others. This is the contract of a call that does nothing.
pub fn prediction_degree_is_its_rule()
    ensures leads { RuleLeadsToOrder }
    ensures alone { RuleLeadsToNoOther }
{}

/// The way round the vertex of a corner, by which parallelograms are gathered, has each corner of the
/// corner's fan, no other, and none twice. Its fuel is enough: with more, it is the same list. This is
/// the contract of a call that does nothing.
pub fn round_is_the_fan()
    ensures fan { RoundIsFan }
    ensures fuel { RoundHasFuel }
{}
