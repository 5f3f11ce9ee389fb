//! A publish that is a response.
ghost use Rattle.std.specs.Prelude.{◌≡◌, IfOk};
ghost use Rattle.world_routing.specs.Handing.{answered_by};

use base::NoMemory;
use events::Message;
use permissions::By;

/// A publish that a grant has allowed.
#[derive(Drop)]
pub struct GrantedResponse {
    /// The connection that publishes.
    pub conn: u64,
    /// What it publishes.
    pub message: Message,
}

/// Returns the publish, if a grant has allowed it: then it is to be counted.
pub(crate) fn answered_by(
    by: By,
    conn: u64,
    message: &Message,
) -> Result<Option<GrantedResponse>, NoMemory>
    ensures { IfOk result (λ answered. answered ≡ answered_by by conn message.now) }
{
    match by {
        By::All => Ok(None),
        By::Index(_) => Ok(None),
        By::Grant => Ok(Some(GrantedResponse {
            conn,
            message: message.again()?,
        })),
    }
}
