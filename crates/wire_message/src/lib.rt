//! The texts of a published message, as they stand in one block (NATS documentation, "Client Protocol", PUB and HPUB). It
//! doesn't know whether its subjects are subjects.
#![tactic(auto)]

mod message;
mod places;
mod run;
mod sizes;

pub use message::MessageText;
pub use places::{Span, TextsAt};
pub use run::{Spot, TextRun};
