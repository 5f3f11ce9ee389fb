//! The tables of the client protocol: what a frame asks of the hub at each stage of a connection, what its client is told of
//! the answer, and what waits there (NATS documentation, "Client Protocol"; docs/PROTOCOL.md). It knows no socket and no hub.
#![tactic(auto)]

pub mod pending;
mod plan;
mod reply;
mod stage;
mod text;

pub use plan::{Plan, message_of, plan_of};
pub use reply::{Reply, make_room, reply_to_outcome, reply_to_refusal};
pub use stage::Stage;
pub use text::{Text, put_text, write_text};
