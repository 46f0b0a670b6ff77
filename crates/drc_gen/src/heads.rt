//! The heads of generated meshes.

ghost use Rattle.std.specs.Prelude.{◌≡◌, IfOk};
ghost use Rattle.drc_gen.specs.Generated.{position_head, label_head, generated_heads};

use crate::kinds::GenKind;
use attr_heads::Head;
use drc_base::Memory;
use std::alloc::Global;

/// The head of positions.
fn positions() -> Head
    ensures { result ≡ position_head }
{
    Head {
        usage: 0,
        dtype: 5,
        comps: 3,
        normalized: 0,
        id: 0,
        quant: None,
        octa: None,
    }
}

/// The head of labels.
fn labels() -> Head
    ensures { result ≡ label_head }
{
    Head {
        usage: 4,
        dtype: 2,
        comps: 1,
        normalized: 0,
        id: 1,
        quant: None,
        octa: None,
    }
}

/// The heads of a kind.
pub(crate) fn make_heads(alloc: Global, kind: GenKind) -> Result<Vec<Head>, Memory>
    ensures { IfOk result (λ heads. heads.items ≡ generated_heads kind) }
{
    match kind {
        GenKind::Seams => Ok(vec![in alloc; positions(), labels()]?),
        _ => Ok(vec![in alloc; positions()]?),
    }
}
