//! All of a publish: decided without changing a table, then its deliveries handed over. It also keeps the deny marks; it
//! carries out no other command, and knows no history.
#![tactic(auto)]

mod caches;
mod carrying;
mod granted_response;
pub mod marks;
mod planning;
mod verdict;

pub use caches::Caches;
pub use carrying::{Deliveries, Routing, carry_publish};
pub use granted_response::GrantedResponse;
pub use planning::{Plan, Publish, plan_publish};
pub use world_views::addressing::Receivers;
pub use world_views::change_routes;
