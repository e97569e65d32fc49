//! Nothing told comes back: what is sent on about a bit does not depend on the prior that was told about it.

#![tactic(auto)]

ghost use Rattle.extrinsics.specs.Extrinsics.{InnerLeavesPriorOut, OuterLeavesPriorOut};

/// Whatever is told about an interleaved bit of the inner trellis, the same is sent on about it.
pub fn inner_leaves_prior_out()
    ensures { InnerLeavesPriorOut }
{}

/// Whatever is told about a coded bit of the outer trellis, the same is sent on about it.
pub fn outer_leaves_prior_out()
    ensures { OuterLeavesPriorOut }
{}
