//! The text of a geometry: printed to a sink as it is made, or whole in memory.

ghost use Rattle.std.specs.Prelude.{◌≡◌, ◌≤◌, ◌++◌, true, length, OnOk, IfOk};
ghost use Rattle.std.specs.Io.KnownBytes.{Appends};
ghost use Rattle.drc_base.specs.Counters.{HasCause};
ghost use Rattle.drc_base.specs.Sinks.{AppendsPrefix};
ghost use Rattle.ply_mesh.specs.RoundTripLaw.{IsReadAgain};
ghost use Rattle.ply_mesh.specs.Text.{text_of, ply_text};
ghost use Rattle.ply_mesh.specs.Printing.{header_lines, Prints};

use crate::header_writer::header_of;
use crate::text_sink::TextSink;
use crate::writing::{PIECE_BYTES, put_body};
use drc_base::{Failed, Memory, Sink, write_all};
use mesh_model::Geometry;
use std::alloc::Global;
use std::marker::Model;

/// The text of a geometry, which is made as it is printed: its header alone stands. Contracts see it as
/// its bytes.
#[derive(Debug, Drop)]
pub struct PlyText {
    header: Vec<u8>,
    geometry: Geometry,
}

impl Model for PlyText {
    ghost use Rattle.std.specs.Prelude.{◌≡◌, List, ℕ};

    ghost Value = { List ℕ };

    ghost use Rattle.ply_mesh.specs.Text.{text_of, ply_text};
    ghost use Rattle.ply_mesh.specs.Printing.{header_lines};

    ghost view = { λ t. ply_text t.geometry };

    ghost invariant = { λ t. t.header.items ≡ text_of (header_lines t.geometry) };
}

impl PlyText {
    /// The text of a geometry: `read_ply` reads it as the same geometry in each profile that has its heads, where it has a square
    /// those with octahedral attributes. Printing it takes no memory.
    pub fn new(alloc: Global, geometry: Geometry) -> Result<PlyText, Memory>
        ensures text { IfOk result (λ text. text ≡ ply_text geometry) }
        ensures again { IfOk result (λ text. IsReadAgain text geometry) }
    {
        let header = header_of(alloc, &geometry)?;
        Ok(PlyText { header, geometry })
    }

    /// Appends the whole text to `out` and finishes it. `Failed` comes only where the sink's count of
    /// failures rose, and then a prefix of the text was appended. It takes no memory. The sink may also
    /// be finished where a part of the text was appended.
    pub fn print<O: Sink>(&self, out: &mut O) -> Result<(), Failed>
        ensures all { OnOk result (Appends (O.held out.old) (O.held out.new) self.now) }
        ensures finished { OnOk result (O.finished out.new ≡ true) }
        ensures prefix { AppendsPrefix (O.held out.old) (O.held out.new) self.now }
        ensures cause { HasCause (O.faults out.old) (O.faults out.new) result }
    {
        print(&self.geometry, &self.header, out)
    }
}

/// Appends the text of a geometry with this header to `out` and finishes it.
fn print<O: Sink>(g: &Geometry, header: &[u8], out: &mut O) -> Result<(), Failed>
    requires { header.now ≡ text_of (header_lines g.now) }
    ensures all { OnOk result (Appends (O.held out.old) (O.held out.new) (ply_text g.now)) }
    ensures finished { OnOk result (O.finished out.new ≡ true) }
    ensures prefix { AppendsPrefix (O.held out.old) (O.held out.new) (ply_text g.now) }
    ensures cause { HasCause (O.faults out.old) (O.faults out.new) result }
{
    let mut chunk = [0u8; PIECE_BYTES];
    let held = put_header(out, header, &mut chunk)?;
    let held = put_body(out, g, &mut chunk, held)?;
    write_all(out, &chunk[..held])
}

/// Puts the header into the chunk, or to the sink where it is longer, and answers how much the chunk
/// holds then.
fn put_header<O: Sink>(out: &mut O, header: &[u8], chunk: &mut [u8]) -> Result<usize, Failed>
    requires { length chunk.old ≡ PIECE_BYTES }
    ensures text { Prints (O.held out.old) (O.held out.new) header.now chunk.new result }
    ensures held { IfOk result (λ now. now ≤ PIECE_BYTES) }
    ensures cause { HasCause (O.faults out.old) (O.faults out.new) result }
{
    if header.len() > chunk.len() {
        write_all(out, header)?;
        return Ok(0);
    }
    chunk[..header.len()].copy_from_slice(header);
    Ok(header.len())
}

/// The text of a geometry: `read_ply` reads it as the same geometry in each profile that has its heads, where it has a square
/// those with octahedral attributes.
pub fn write_ply(alloc: Global, g: &Geometry) -> Result<Vec<u8>, Memory>
    ensures text { IfOk result (λ text. text.items ≡ ply_text g.now) }
    ensures again { IfOk result (λ text. IsReadAgain text.items g.now) }
{
    let header = header_of(alloc, g)?;
    let mut out = TextSink::new(alloc);
    match print(g, &header, &mut out) {
        Ok(()) => Ok(out.into_text()),
        Err(Failed) => Err(Memory),
    }
}
