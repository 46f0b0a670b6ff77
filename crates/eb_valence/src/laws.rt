//! What holds of the definitions themselves.

ghost use Rattle.eb_valence.specs.Contexts.{EachReadsBack, WordsReadBack};

/// The lists of a word give its symbols back to the machine: where the machine takes a symbol, reading by
/// the degree that it has then gives this symbol, and leaves the lists of those behind it; so a word that
/// the machine takes without a fault is read whole. This is the contract of a call that does nothing.
pub fn contexts_read_back()
    ensures each { EachReadsBack }
    ensures words { WordsReadBack }
{}
