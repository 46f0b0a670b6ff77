//! Writing what a command came to.

ghost use Rattle.std.specs.Prelude.{◌≡◌, ◌≤◌, true, OnOk};
ghost use Rattle.std.specs.Io.KnownBytes.{Appends};
ghost use Rattle.drc_base.specs.Counters.{HasCause};
ghost use Rattle.drc_base.specs.Sinks.{AppendsPrefix};
ghost use Rattle.drc_app.specs.Ends.{puts, IsTried};
ghost use Rattle.drc_app.specs.Notes.{memory_note};
ghost use Rattle.drc_app.specs.Outcome.{output_bytes, Delivers, IsDelivered};

use crate::notes::{bad_word, refused, unlike};
use crate::outcomes::{Due, Outcome, Output};
use drc_base::{Failed, Sink, write_all};

/// Writes the outcome and its note, and answers its status: 0 where all that was due was written, 1
/// for a bad word, 2 for a refusal, 3 where reading failed, 4 where writing failed, 5 for out of
/// memory, 6 for a verdict that isn't yes. It takes no memory.
pub fn deliver<O: Sink, N: Sink>(outcome: &Outcome, output: &mut O, notes: &mut N) -> u8
    ensures delivered { Delivers outcome.now
        (puts O.held O.faults O.finished output.old output.new) (puts N.held N.faults N.finished notes.old notes.new) result }
    ensures output_counts { O.faults output.old ≤ O.faults output.new }
    ensures note_counts { N.faults notes.old ≤ N.faults notes.new }
{
    match outcome {
        Outcome::Done(due) => deliver_due(due, output, notes),
        Outcome::Differs(verdict) => leave_note(notes, unlike(*verdict).as_bytes(), 6),
        Outcome::Refused(fault) => leave_note(notes, refused(*fault).as_bytes(), 2),
        Outcome::BadWord(index) => leave_note(notes, bad_word(*index).as_bytes(), 1),
        Outcome::ReadFailed => leave_note(notes, b"read failed\n", 3),
        Outcome::NoMemory => out_of_memory(notes),
    }
}

/// Tries the note of a run that is out of memory, and answers its status, 5. It takes no memory. `run`
/// ends so, and a program that can't hold the words of its command line.
pub fn out_of_memory<N: Sink>(notes: &mut N) -> u8
    ensures status { result ≡ 5 }
    ensures tried { IsTried (puts N.held N.faults N.finished notes.old notes.new) memory_note }
    ensures counts { N.faults notes.old ≤ N.faults notes.new }
{
    leave_note(notes, b"memory wanting\n", 5)
}

/// Writes an output and then its note; where the output failed, the note of that.
fn deliver_due<O: Sink, N: Sink>(due: &Due, output: &mut O, notes: &mut N) -> u8
    ensures delivered { IsDelivered
        (puts O.held O.faults O.finished output.old output.new) (puts N.held N.faults N.finished notes.old notes.new)
        (output_bytes due.now.output) due.now.note.items result }
    ensures output_counts { O.faults output.old ≤ O.faults output.new }
    ensures note_counts { N.faults notes.old ≤ N.faults notes.new }
{
    if write_output(&due.output, output).is_err() {
        return leave_note(notes, b"write failed\n", 4);
    }
    if write_all(notes, &due.note).is_err() {
        return 4;
    }
    0
}

/// Appends the whole output to `out` and finishes it, as `write_all` does.
fn write_output<O: Sink>(output: &Output, out: &mut O) -> Result<(), Failed>
    ensures all { OnOk result (Appends (O.held out.old) (O.held out.new) (output_bytes output.now)) }
    ensures finished { OnOk result (O.finished out.new ≡ true) }
    ensures prefix { AppendsPrefix (O.held out.old) (O.held out.new) (output_bytes output.now) }
    ensures cause { HasCause (O.faults out.old) (O.faults out.new) result }
{
    match output {
        Output::Bytes(bytes) => write_all(out, bytes),
        Output::Text(text) => text.print(out),
        Output::Fixed(text) => write_all(out, text.as_bytes()),
    }
}

/// Tries to write a note, and answers the status given.
fn leave_note<N: Sink>(notes: &mut N, text: &[u8], status: u8) -> u8
    ensures status { result ≡ status }
    ensures tried { IsTried (puts N.held N.faults N.finished notes.old notes.new) text.now }
    ensures counts { N.faults notes.old ≤ N.faults notes.new }
{
    let _ = write_all(notes, text);
    status
}
