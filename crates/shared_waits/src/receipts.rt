//! What a seat was told of one event, and whether it is a verdict of the policy that it names (docs/GUARANTEE.md,
//! "Threads").

mod receipt;

pub use receipt::Receipt;
