//! The weights of mappings: how many of a hundred messages go to a destination.

mod text;
mod weight;

pub use text::weight_written;
pub use weight::Weight;
