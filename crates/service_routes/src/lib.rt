//! Response routes of all exporters, by the exporters' names, and on which terms requests across a row are answered. It
//! knows no session and no subscription.
#![tactic(auto)]

mod laws;
mod plain;
mod routes;
pub mod service_rows;

pub use laws::{answers_to_routes, opens_together, seen_by_life};
pub use plain::NamedExporter;
pub use routes::Routes;
pub use service_exporter::{
    NewRow, ResponseTerms, Route, RouteError, Row, ServiceRows, route_subject,
};
