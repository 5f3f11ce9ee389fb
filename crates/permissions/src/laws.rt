//! What holds of the definitions alone.
ghost use Rattle.permissions.specs.Verdicts.{HasOnePublishVerdict, HasOneSubscribeVerdict, HasOneDeliveryVerdict, HasSubscribeReason};

use subjects::Pattern;

/// At most one verdict has its reason in given lists, on a publish, on a subscription and on a delivery
/// (docs/POLICY.md, "Permissions"). So a verdict and its reason say the same.
#[tactic(auto, using(crate::proofs::One::one_publish_verdict, crate::proofs::One::one_subscribe_verdict, crate::proofs::One::one_delivery_verdict))]
pub fn one_verdict()
    ensures publish { HasOnePublishVerdict }
    ensures subscribe { HasOneSubscribeVerdict }
    ensures delivery { HasOneDeliveryVerdict }
{}

/// The verdict on a subscription to a pattern has its reason, whatever the lists and the queue are (docs/POLICY.md,
/// "Permissions"). It does nothing when it runs.
pub fn each_has_reason(pattern: &Pattern)
    ensures { HasSubscribeReason pattern.now }
{
    // The tokens tell the prover that they are those of a pattern.
    let _ = pattern.tokens();
}
