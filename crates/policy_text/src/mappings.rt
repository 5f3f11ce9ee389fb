//! The mappings of an account in a policy's JSON, walked (docs/GUARANTEE.md, "Mappings").

mod destination;
mod source;
mod weight;

pub use source::mappings_under;
