//! The world: the tables of the router, and what one event makes of them. It knows no history, no thread and no connection's
//! bytes.
#![tactic(auto)]

mod carry_out;
mod change;
pub mod copies;
mod decide;
mod granting;
mod plain;
mod reload;
mod verdict;
mod world;

pub use plain::PlainWorld;
pub use world::World;
pub use world_routing::Caches;
