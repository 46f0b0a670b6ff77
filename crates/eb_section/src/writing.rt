//! Writing the section.

ghost use Rattle.std.specs.Prelude.{◌≡◌, ◌<◌, ◌≤◌, ◌^◌, ◌++◌, OnOk, All, length, map, reverse};
ghost use Rattle.eb_machine.specs.Machine.{start};
ghost use Rattle.eb_machine.specs.Events.{IsEventOf};
ghost use Rattle.eb_machine.specs.Shown.{is_split as is_split_symbol};
ghost use Rattle.eb_trace.specs.Writable.{IsWritable};
ghost use Rattle.eb_valence.specs.Noting.{TakesWord};
ghost use Rattle.eb_section.specs.Written.{opening_of, opening_bytes, bytes_behind_events, connectivity_bytes};
ghost use Rattle.eb_section.specs.ReadAgain.{IsReadAgain};
ghost use Rattle.eb_section.specs.CodedBlocks.{AreCoded};

use crate::opening::{Opening, STANDARD, VALENCE};
use crate::writing_events::put_events;
use crate::writing_standard::put_standard;
use crate::writing_valence::put_valence;
use corner_table::Symbol;
use drc_base::{MAX_ATTRIBUTES, MAX_FACES, MAX_POINTS, Memory};
use drc_bits::put_var32;
use eb_trace::Traced;
use std::alloc::Global;

/// Appends the section (Draco Bitstream Specification 2.2, section "Edgebreaker Connectivity") of a trace of
/// so many faces, with the seam bits of each attribute data: symbols standard, or by valence. Wherever its
/// bytes stand and whatever follows them, they are read with exactly their length, as the surface that reverse
/// decoding builds of the trace, with a block of seam bits for each list. It fails only when out of memory, and
/// what `out` holds then is left open.
#[tactic(auto, unfolding(crate::specs::Written::connectivity_bytes))]
pub fn write_connectivity(
    alloc: Global,
    out: &mut Vec<u8>,
    t: &Traced,
    faces: u32,
    valence: bool,
    seams: &[Vec<bool>],
) -> Result<(), Memory>
    requires writable { IsWritable faces t.now.vertices t.now.symbols t.now.events t.now.starts }
    requires faces { faces ≤ MAX_FACES }
    requires vertices { t.now.vertices ≤ MAX_POINTS }
    requires few { length seams.now ≤ MAX_ATTRIBUTES }
    requires short { All (λ v. length v.items < 2 ^ 31) seams.now }
    ensures bytes { OnOk result (out.new.items ≡ out.old.items ++ connectivity_bytes valence faces t.now (map (λ s. s.items) seams.now)) }
    ensures again { OnOk result (IsReadAgain valence faces t.now (map (λ s. s.items) seams.now) (connectivity_bytes valence faces t.now (map (λ s. s.items) seams.now))) }
{
    put_opening(out, opening_for(t, faces, valence, seams.len()))?;
    put_events(alloc, out, t.events.as_slice())?;
    put_coded(alloc, out, t, valence, seams)?;
    Ok(())
}

/// Appends what lies behind the events.
fn put_coded(
    alloc: Global,
    out: &mut Vec<u8>,
    t: &Traced,
    valence: bool,
    seams: &[Vec<bool>],
) -> Result<(), Memory>
    requires few { length t.now.symbols ≤ MAX_FACES }
    requires events { All (IsEventOf (length t.now.symbols)) t.now.events }
    requires takes { TakesWord (length t.now.symbols) (reverse t.now.symbols) (start (reverse t.now.events)) }
    requires starts { length t.now.starts < 2 ^ 31 }
    requires short { All (λ v. length v.items < 2 ^ 31) seams.now }
    ensures bytes { OnOk result (out.new.items ≡ out.old.items ++ bytes_behind_events valence t.now (map (λ s. s.items) seams.now)) }
    ensures coded { OnOk result (AreCoded valence t.now (map (λ s. s.items) seams.now)) }
{
    if valence {
        put_valence(alloc, out, t, seams)
    } else {
        put_standard(alloc, out, t, seams)
    }
}

/// Whether a symbol is a split.
fn is_split(symbol: Symbol) -> bool
    ensures { result ≡ is_split_symbol symbol }
{
    match symbol {
        Symbol::S => true,
        Symbol::C | Symbol::L | Symbol::R | Symbol::E => false,
    }
}

/// What the opening declares of a trace.
fn opening_for(t: &Traced, faces: u32, valence: bool, attr_data: usize) -> Opening
    requires symbols { length t.now.symbols ≤ MAX_FACES }
    requires few { attr_data ≤ MAX_ATTRIBUTES }
    ensures { result ≡ opening_of valence faces attr_data t.now }
{
    let symbols = t.symbols.as_slice();
    let splits = symbols.iter().filter(|symbol| is_split(**symbol)).count();
    Opening {
        valence,
        vertices: t.vertices,
        faces,
        attr_data: attr_data as u8,
        symbols: symbols.len() as u32,
        splits: splits as u32,
    }
}

/// Appends the opening.
#[tactic(auto, unfolding(crate::specs::Written::opening_bytes))]
fn put_opening(out: &mut Vec<u8>, o: Opening) -> Result<(), Memory>
    ensures { OnOk result (out.new.items ≡ out.old.items ++ opening_bytes o) }
{
    out.push(if o.valence { VALENCE } else { STANDARD })?;
    out.extend_from_slice(&put_var32(o.vertices))?;
    out.extend_from_slice(&put_var32(o.faces))?;
    out.push(o.attr_data)?;
    out.extend_from_slice(&put_var32(o.symbols))?;
    out.extend_from_slice(&put_var32(o.splits))?;
    Ok(())
}
