//! The import rows of services: on which terms their requests are answered, and which of them another policy has again.

mod renewed;
mod terms;

pub use renewed::RenewedRows;
pub use terms::terms_of;
