//! The subject or the pattern of a text, if it is one.

mod texts;

pub use texts::{pattern_if, subject_if};
