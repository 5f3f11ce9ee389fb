//! The mappings of an account: under which subject a message is sent on, chosen by weights and a word that the caller draws.
//! It knows no policy.
#![tactic(auto)]

mod account_map;
mod choosing;
mod destination;
mod drawing;
mod laws;
mod mappings;
pub mod weights;

pub use crate::weights::Weight;
pub use account_map::AccountMap;
pub use choosing::draw_of;
pub use destination::Destination;
pub use drawing::{Mapped, mapped_by, source_of};
pub use laws::fair_draws;
pub use mapping::one_way::MappingError;
pub use mappings::Mappings;
