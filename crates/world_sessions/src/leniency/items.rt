ghost use Rattle.std.specs.Prelude.{◌≡◌};
ghost use Rattle.world_sessions.specs.leniency.Items.{items_in};

use events::{Item, Outcome};

/// Returns the items of an outcome: what each delivery of a message meets, and the rows and mappings that are reported between
/// them. Only a Published has any.
#[inline(always)]
pub fn items_in(outcome: &Outcome) -> &[Item]
    ensures { result.now ≡ items_in outcome.now }
{
    match outcome {
        Outcome::Published(_, items) => items.as_slice(),
        _ => &[],
    }
}
