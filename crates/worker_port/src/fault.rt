//! Why a server stops, and the line that tells it.

mod end;
mod fault;

pub use end::Fault;
pub use fault::{ServeFault, least};
