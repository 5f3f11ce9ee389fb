//! What holds of the definitions alone.
ghost use Rattle.shared_hub.specs.desk.Bounds.{HasNoMore, StaysEntering, StaysLeaving};

/// Tells that no more than 128 MiB wait for a connection, if each delivery enters on the terms of `Desk::step_if` and no
/// message has more than 64 MiB (docs/GUARANTEE.md, "A message that is held back").
#[tactic(auto, using(crate::proofs::desk::Weights::has_no_more))]
pub fn bounded()
    ensures most { HasNoMore }
    ensures entering { StaysEntering }
    ensures leaving { StaysLeaving }
{}
