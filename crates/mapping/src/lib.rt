//! Subjects of one account under the names that another has for them, and subjects sent on under others. It knows no
//! account: who asks says which mapping.
#![tactic(auto)]

mod error;
mod given;
mod laws;
mod locals;
mod making;
mod map;
pub mod one_way;
mod side;
pub mod templates;
#[cfg(test)]
mod tests;

pub use crate::templates::MappingError;
pub use error::MapError;
pub use laws::{back_undoes_forward, one_to_one, pairs_are_subjects};
pub use locals::{Local, local_of};
pub use map::Mapping;
