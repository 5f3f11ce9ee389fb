//! A walk over the JSON value of a policy that passes no fault by.

mod account;
mod checker;
mod mappings;
mod object;
mod rows;
mod texts;
mod user_permissions;
mod whole;

pub use whole::faults_of_value;
