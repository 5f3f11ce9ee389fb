ghost use Rattle.std.specs.Prelude.{◌≡◌, Bool};
ghost use Rattle.world_rows.specs.declared.subscription.Subscription.{Subscription};

use crate::SharedSubscription;

/// A test of which subscriptions stay.
pub trait Keeps {
    /// The test, as a clause says it.
    ghost keeps: { Self → Subscription → Bool };

    /// Returns whether a subscription stays.
    fn keeps(&self, subscription: &SharedSubscription) -> bool
        ensures { result ≡ keeps self.now subscription.now };
}
