//! Queue groups (NATS documentation, "Queue Groups"): of the subscriptions that may be sent a message the plain ones
//! stay, and of each queue group the member that the message's word chooses.

mod address;
mod grouping;
mod groups;

pub use address::{Routed, address_served, passing_of};
pub use grouping::{Grouping, grouping_of};
pub use groups::keep_chosen;
