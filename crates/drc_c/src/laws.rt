//! What holds of the definitions themselves.

ghost use Rattle.drc_c.specs.HeadLaws.{ToldHeadsMean};

/// Heads that pass, as C has them, mean themselves: what is decoded can be encoded again. This is the contract of
/// a call that does nothing.
#[tactic(auto, using(crate::proofs::ToldHeads::told_again))]
pub fn told_heads_mean()
    ensures { ToldHeadsMean }
{}
