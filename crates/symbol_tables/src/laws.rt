//! What holds of the definitions themselves.

ghost use Rattle.symbol_tables.specs.SpellingLaws.{EverySpellingIsRead, EveryTableIsRead, NothingElseIsRead};

/// Spellings of tables, on whole lists: the bytes of entries, each of one probability or of a run "this
/// symbol and the next n have probability 0", are read as the probabilities of these entries, whichever
/// spelling it is; nothing else is read; and a fault is that of the first bytes behind entries that are
/// no entry which fits. This is the contract of a call that does nothing.
pub fn every_spelling_is_read()
    ensures read { EverySpellingIsRead }
    ensures only { NothingElseIsRead }
    ensures tables { EveryTableIsRead }
{}
