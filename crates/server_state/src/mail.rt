//! The workers' mailboxes, the mail that answers make for them, and the state that all threads of a server share.

mod mailbox;
mod outgoing;
mod pending;
mod server_state;
mod ways;

pub use mailbox::{Arrival, Intake, Mail, Mailbox};
pub use outgoing::{OutgoingMail, owner_of};
pub use pending::Pending;
pub use server_state::{Flags, Limits, ServerState, millis, open_mailbox};
pub use ways::Ways;
