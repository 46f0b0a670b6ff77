//! Attributes from the names of properties.

ghost use Rattle.std.specs.Prelude.{◌≡◌, ◌≤◌, ◌<◌, length, All, IsTrue, IfOk, IfSome, MatchOption};
ghost use Rattle.attr_heads.specs.DataTypes.{is_integer};
ghost use Rattle.attr_heads.specs.Usages.{is_usage};
ghost use Rattle.ply_text.specs.IsHeader.{HeadFits, HasType};
ghost use Rattle.ply_text.specs.NamedHeads.{named_head, named_heads};

use crate::headers::Property;
use crate::name_runs::run_of;
use attr_heads::{COLOUR, Head};
use drc_base::{MAX_ATTRIBUTES, Memory};
use std::alloc::Global;

/// Attribute number `k` with this usage, type and components.
#[tactic(auto, using(crate::proofs::HeadsPass::integer_accepted, crate::proofs::HeadsPass::four_accepted))]
fn named_head(k: u32, dtype: u8, run: (u8, u8)) -> Head
    requires dtype { IsTrue (is_integer dtype) }
    requires run { IsTrue (is_usage run.0) × (0 < run.1) × (run.1 ≤ 4) }
    ensures head { result ≡ named_head k dtype run }
    ensures fits { HeadFits result }
{
    Head {
        usage: run.0,
        dtype,
        comps: run.1,
        normalized: if run.0 == COLOUR { 1 } else { 0 },
        id: k,
        quant: None,
        octa: None,
    }
}

/// The attributes that the names of the properties give, from the left; None exactly where they are
/// more than 16.
#[tactic(auto, using(crate::proofs::Names::skips, crate::proofs::Names::adds, crate::proofs::Names::too_many, crate::proofs::Names::all_named, crate::proofs::Names::some_named))]
pub(crate) fn named_heads(
    alloc: Global,
    properties: &[Property],
) -> Result<Option<Vec<Head>>, Memory>
    requires types { All HasType properties.now }
    ensures heads { IfOk result (λ found. MatchOption found (16 < length (named_heads 0 0 properties.now)) (λ heads. heads.items ≡ named_heads 0 0 properties.now)) }
    ensures fits { IfOk result (λ found. IfSome found (λ heads. All HeadFits heads.items)) }
    ensures some { 0 < length properties.now → IfOk result (λ found. IfSome found (λ heads. 1 ≤ length heads.items)) }
{
    let mut heads = Vec::new(alloc);
    let mut skip: u8 = 0;
    for i in 0..properties.len() {
        if skip > 0 {
            skip -= 1;
            continue;
        }
        if heads.len() >= MAX_ATTRIBUTES as usize {
            return Ok(None);
        }
        let dtype = properties[i].dtype;
        let run = run_of(dtype, &properties[i..]);
        heads.push(named_head(heads.len() as u32, dtype, run))?;
        skip = run.1 - 1;
    }
    Ok(Some(heads))
}
