//! Finds a message's receivers in each of its views, and opens or ends its response routes. It hands nothing over, and doesn't
//! judge whether the message is allowed.
#![tactic(auto)]

mod across;
pub mod addressing;
mod changing;
mod request;
mod viewing;

pub use across::{Publishing, Told, address_all, address_under, is_route, may_be_route};
pub use changing::{Opening, RouteChange, change_routes};
pub use viewing::{Cause, Report, with_reports};
