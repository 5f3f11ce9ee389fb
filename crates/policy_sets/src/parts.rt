//! A policy's parts: each smallest closed set of its accounts as the text of a policy of its own (docs/POLICY.md, "Tenants that
//! exchange nothing").

mod cutting;
mod parts;

pub use parts::{PolicyPart, parts_of};
