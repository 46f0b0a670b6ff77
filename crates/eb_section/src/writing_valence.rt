//! Writing what lies behind the events under the valence traversal.

ghost use Rattle.std.specs.Prelude.{◌≡◌, ◌<◌, ◌≤◌, ◌^◌, ◌++◌, IfOk, OnOk, All, length, map, reverse};
ghost use Rattle.std.specs.List.{flat_map};
ghost use Rattle.rans_binary.specs.Blocks.{IsBlockOf, block};
ghost use Rattle.eb_machine.specs.Machine.{start};
ghost use Rattle.eb_machine.specs.Events.{IsEventOf};
ghost use Rattle.eb_valence.specs.Noting.{TakesWord};
ghost use Rattle.eb_valence.specs.Contexts.{context_lists};
ghost use Rattle.eb_section.specs.Written.{list_bytes, valence_behind_bytes};
ghost use Rattle.eb_section.specs.CodedBlocks.{AreBlocks, IsSymbolBlock};

use crate::writing_blocks::{put_block, put_blocks};
use corner_table::Steps;
use drc_base::{MAX_FACES, Memory};
use drc_bits::put_var32;
use eb_trace::Traced;
use eb_valence::{CONTEXTS, ContextLists, contexts_of};
use std::alloc::Global;
use std::marker::Brand;
use std::sync::ledger::{Blank, Ledger};
use symbol_coding::write_symbols;

/// Appends the start bits, the seam bits and the symbols by their contexts.
#[tactic(auto, unfolding(crate::specs::Written::valence_behind_bytes))]
pub(crate) fn put_valence(
    alloc: Global,
    out: &mut Vec<u8>,
    t: &Traced,
    seams: &[Vec<bool>],
) -> Result<(), Memory>
    requires few { length t.now.symbols ≤ MAX_FACES }
    requires events { All (IsEventOf (length t.now.symbols)) t.now.events }
    requires takes { TakesWord (length t.now.symbols) (reverse t.now.symbols) (start (reverse t.now.events)) }
    requires starts { length t.now.starts < 2 ^ 31 }
    requires short { All (λ v. length v.items < 2 ^ 31) seams.now }
    ensures bytes { OnOk result (out.new.items ≡ out.old.items ++ valence_behind_bytes t.now (map (λ s. s.items) seams.now)) }
    ensures starts { OnOk result (IsBlockOf t.now.starts (block t.now.starts)) }
    ensures seams { OnOk result (AreBlocks (map (λ s. s.items) seams.now)) }
    ensures contexts { OnOk result (All IsSymbolBlock (context_lists t.now.symbols t.now.events)) }
{
    put_block(alloc, out, t.starts.as_slice())?;
    put_blocks(alloc, out, seams)?;
    put_contexts(alloc, out, t)?;
    Ok(())
}

/// Appends the lists of contexts.
fn put_contexts(alloc: Global, out: &mut Vec<u8>, t: &Traced) -> Result<(), Memory>
    requires few { length t.now.symbols ≤ MAX_FACES }
    requires events { All (IsEventOf (length t.now.symbols)) t.now.events }
    requires takes { TakesWord (length t.now.symbols) (reverse t.now.symbols) (start (reverse t.now.events)) }
    ensures bytes { OnOk result (out.new.items ≡ out.old.items ++ flat_map list_bytes (context_lists t.now.symbols t.now.events)) }
    ensures coded { OnOk result (All IsSymbolBlock (context_lists t.now.symbols t.now.events)) }
{
    let lists = lists_by::<Brand>(alloc, t, Blank::new(1))?;
    put_lists(alloc, out, &lists)?;
    Ok(())
}

/// The lists of contexts, under a count of table calls that nothing else takes part in.
fn lists_by<L: Ledger>(alloc: Global, t: &Traced, blank: Blank) -> Result<ContextLists, Memory>
    requires few { length t.now.symbols ≤ MAX_FACES }
    requires events { All (IsEventOf (length t.now.symbols)) t.now.events }
    requires takes { TakesWord (length t.now.symbols) (reverse t.now.symbols) (start (reverse t.now.events)) }
    requires name { blank.name ≡ L.name }
    requires parts { blank.parts ≡ L.parts }
    requires some { 0 < L.parts }
    ensures { IfOk result (λ lists. lists ≡ context_lists t.now.symbols t.now.events) }
{
    let mut steps = Steps::<L>::new(blank);
    contexts_of(alloc, t.symbols.as_slice(), t.events.as_slice(), &mut steps)
}

/// Appends each list of numbers.
fn put_lists(alloc: Global, out: &mut Vec<u8>, lists: &ContextLists) -> Result<(), Memory>
    requires all { length lists.now ≡ CONTEXTS }
    requires short { All (λ numbers. length numbers ≤ MAX_FACES) lists.now }
    ensures bytes { OnOk result (out.new.items ≡ out.old.items ++ flat_map list_bytes lists.now) }
    ensures coded { OnOk result (All IsSymbolBlock lists.now) }
{
    for context in 0..CONTEXTS {
        put_list(alloc, out, lists.list(context))?;
    }
    Ok(())
}

/// Appends a list of numbers: how many there are, and those.
fn put_list(alloc: Global, out: &mut Vec<u8>, numbers: &[u32]) -> Result<(), Memory>
    requires { length numbers.now ≤ MAX_FACES }
    ensures bytes { OnOk result (out.new.items ≡ out.old.items ++ list_bytes numbers.now) }
    ensures coded { OnOk result (IsSymbolBlock numbers.now) }
{
    out.extend_from_slice(&put_var32(numbers.len() as u32))?;
    let coded = write_symbols(alloc, numbers, 1)?;
    out.extend_from_slice(coded.as_slice())?;
    Ok(())
}
