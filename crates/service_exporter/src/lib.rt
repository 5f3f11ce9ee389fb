//! Response routes of one exporter: on which subjects its services may answer the requests of other accounts, and for how
//! long. It knows no other exporter and no message.
#![tactic(auto)]

mod error;
mod exporter;
mod plain;
mod route;
pub mod service_subjects;
mod slots;
mod tally;

pub use crate::service_subjects::route_subject;
pub use error::RouteError;
pub use exporter::Exporter;
pub use plain::{PlainExporter, PlainRoute};
pub use policy_doc::exports::{ResponseTerms, Row};
pub use route::{NewRow, Route, ServiceRows};
