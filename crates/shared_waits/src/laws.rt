//! What holds of the definitions alone.
ghost use Rattle.shared_waits.specs.Charges.{AreChargesBounded};

/// Tells that a receiver with which there always is patience is charged at most ten seconds in all, and a tenth of the time
/// since it was first found behind (docs/GUARANTEE.md, "A message that is held back").
#[tactic(auto, using(crate::proofs::Charged::charges_are_bounded))]
pub fn charges_bounded()
    ensures { AreChargesBounded }
{}
