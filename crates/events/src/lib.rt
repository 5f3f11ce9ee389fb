//! What connections and tables say to each other: events, answers, messages on their way, and the trait `Port` between them. It
//! decides nothing, and knows neither side.
#![tactic(auto)]

mod answer;
mod equality;
mod event;
mod port;
mod refusal;
mod run;
mod sent;
mod waiting;
mod words;

pub use answer::{Addressed, Answer, Delivery, Entry, Item, Met, Outcome, Removed};
pub use event::{Command, Event};
pub use messages::{Message, Sid};
pub use port::{InvalidFrame, Port};
pub use refusal::{HubRefusal, PublishRefusal};
pub use run::RunEnd;
pub use sent::{Names, Said, Sent};
pub use stores::outbox::Batch;
pub use waiting::{Deliveries, DeliveryRef, DeliveryRun, Waiting, are_same_deliveries};
pub use wire_message::TextRun;
pub use words::Words;
