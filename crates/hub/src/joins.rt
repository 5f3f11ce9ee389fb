//! Checks that segments of a history and a hub's tail are one history (docs/GUARANTEE.md, "The history").

mod joining;
mod part;

pub use joining::joins;
