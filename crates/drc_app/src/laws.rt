//! What holds of the definitions themselves.

ghost use Rattle.drc_app.specs.Laws.{WordsSaySomething, WordsSayOneThing, LinesAreOfKinds, WordsNameBack, GeneratedIsEncoded};

/// Any words are the line of one command, or have one bad word, and reading them word by word finds
/// it. The lines that the table of commands makes are plain ones, those of encoding and those of generated
/// meshes. Each value that has a word is what this word names. This is the contract of a call that does nothing.
pub fn words_say_one_thing()
    ensures found { WordsSaySomething }
    ensures alone { WordsSayOneThing }
    ensures kinds { LinesAreOfKinds }
    ensures back { WordsNameBack }
{}

/// Generated meshes are never refused: whatever the kind, the size that a command line may ask for and
/// the seed, each choice that fits a mesh (`choice_fault` finds nothing) has its stream, unless it runs
/// out of memory. This is the contract of a call that does nothing.
pub fn generated_meshes_are_encoded()
    ensures { GeneratedIsEncoded }
{}
