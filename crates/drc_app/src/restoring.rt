//! The stream behind a map, in the order before the map's rows.

ghost use Rattle.std.specs.Prelude.{◌≡◌, Err, IfOk};
ghost use Rattle.drc_base.specs.declared.faults.Fault.{Fault as AnyFault};
ghost use Rattle.drc_base.specs.declared.faults.Refusal.TheVariants as refusal;
ghost use Rattle.drc_base.specs.Profile.{profile_numbered};
ghost use Rattle.drc_base.specs.Refusals.{Answers};
ghost use Rattle.mesh_model.specs.MapRead.{limited_head_at};
ghost use Rattle.drc_app.specs.Due.{restored_due};
ghost use Rattle.drc_app.specs.Kept.{IsInOrder};
ghost use Rattle.drc_app.specs.Outcome.{output_bytes, due_bytes};

use crate::map_inputs::behind_map;
use crate::outcomes::{Due, Output};
use drc_base::{Profile, Refusal};
use drc_recode::restore;
use mesh_model::read_map;
use std::alloc::Global;

/// The stream behind the map at the front of `input`, read in a profile, in the order before the map's rows, and no note.
#[tactic(auto, unfolding(crate::specs::Due::restored_due))]
pub fn restored_due(alloc: Global, input: &[u8], profile: Profile) -> Result<Due, Refusal>
    ensures answer { Answers due_bytes (restored_due (profile_numbered profile.number) input.now) result }
    ensures early { (f : AnyFault) → limited_head_at input.now ≡ Err f → result ≡ Err (refusal.Fault f) }
    ensures kept { IfOk result (λ d. IsInOrder (profile_numbered profile.number) input.now (output_bytes d.output)) }
{
    let map = read_map(alloc, input)?;
    let output = restore(alloc, &map, behind_map(&map, input), profile)?;
    Ok(Due {
        output: Output::Bytes(output),
        note: Vec::new(alloc),
    })
}
