//! The top call.

ghost use Rattle.std.specs.Prelude.{◌≡◌, ◌≤◌, map, string_bytes};
ghost use Rattle.drc_app.specs.Line.{OfWords};
ghost use Rattle.drc_app.specs.Progress.{line_of};
ghost use Rattle.drc_app.specs.Ends.{takes, puts};
ghost use Rattle.drc_app.specs.Run.{HasRun, IsComplete, NamesFault, NotesVerdict};

use crate::delivery::deliver;
use crate::outcomes::outcome_of;
use drc_base::{Sink, Source};
use std::alloc::Global;

/// Runs the command of `words`, without the program's name: reads `input`, where the command reads,
/// writes `output` and leaves a note. It answers the status: 0 done, 1 bad words, 2 the input is
/// refused, 3 reading failed, 4 writing failed, 5 out of memory, 6 what was verified isn't the same. With bad words, and for `gen`, `help` and `version`, nothing
/// is taken from the input. Once the input is read, faults of what it declares are refused by name, and never by
/// running out of memory.
pub fn run<I: Source, O: Sink, N: Sink>(
    alloc: Global,
    words: &[String],
    input: &mut I,
    output: &mut O,
    notes: &mut N,
) -> u8
    ensures ran { OfWords (map string_bytes words.now) (λ line. HasRun line (takes I.left I.given I.faults I.ended input.old input.new)
        (puts O.held O.faults O.finished output.old output.new) (puts N.held N.faults N.finished notes.old notes.new) result) }
    ensures complete { OfWords (map string_bytes words.now) (λ line. IsComplete line (takes I.left I.given I.faults I.ended input.old input.new)
        (puts O.held O.faults O.finished output.old output.new) (puts N.held N.faults N.finished notes.old notes.new) result) }
    ensures named { OfWords (map string_bytes words.now) (λ line. NamesFault line (takes I.left I.given I.faults I.ended input.old input.new) result) }
    ensures noted { OfWords (map string_bytes words.now) (λ line. NotesVerdict line (takes I.left I.given I.faults I.ended input.old input.new) result) }
    ensures input_counts { I.faults input.old ≤ I.faults input.new }
    ensures output_counts { O.faults output.old ≤ O.faults output.new }
    ensures note_counts { N.faults notes.old ≤ N.faults notes.new }
{
    run_by_word(alloc, words, input, output, notes)
}

/// `run`, stated of the line that is found word by word. It stands for the proof of `run` alone.
fn run_by_word<I: Source, O: Sink, N: Sink>(
    alloc: Global,
    words: &[String],
    input: &mut I,
    output: &mut O,
    notes: &mut N,
) -> u8
    ensures ran { HasRun (line_of (map string_bytes words.now)) (takes I.left I.given I.faults I.ended input.old input.new)
        (puts O.held O.faults O.finished output.old output.new) (puts N.held N.faults N.finished notes.old notes.new) result }
    ensures complete { IsComplete (line_of (map string_bytes words.now)) (takes I.left I.given I.faults I.ended input.old input.new)
        (puts O.held O.faults O.finished output.old output.new) (puts N.held N.faults N.finished notes.old notes.new) result }
    ensures named { NamesFault (line_of (map string_bytes words.now)) (takes I.left I.given I.faults I.ended input.old input.new) result }
    ensures noted { NotesVerdict (line_of (map string_bytes words.now)) (takes I.left I.given I.faults I.ended input.old input.new) result }
    ensures input_counts { I.faults input.old ≤ I.faults input.new }
    ensures output_counts { O.faults output.old ≤ O.faults output.new }
    ensures note_counts { N.faults notes.old ≤ N.faults notes.new }
{
    let outcome = outcome_of(alloc, words, input);
    deliver(&outcome, output, notes)
}
