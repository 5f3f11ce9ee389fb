//! The hub: the world with its history, one step and runs of steps under the routing guarantee, and whether parts that were
//! handed out are one history. It knows no thread, no clock and no connection's bytes.
#![tactic(auto)]

mod hub;
pub mod joins;
mod segment;

pub use events::{
    Answer, Command, Delivery, Entry, Event, HubRefusal, Item, Message, Met, Outcome, Port,
    PublishRefusal, Removed, Sid,
};
pub use hub::{Caps, Hub};
pub use policy_ready::{CompiledPolicy, User};
pub use records::History;
pub use segment::Segment;
pub use world::PlainWorld;
pub use world::copies::Standing;
pub use world_sessions::leniency::{Lenient, LenientToAll};
