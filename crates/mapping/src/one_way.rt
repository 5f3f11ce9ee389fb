//! Subjects of an account, sent on under other subjects: mappings in one direction, whose templates may use a wildcard twice
//! or not at all.
//!
//! A mapping is made once, for a destination of an account's mappings; `forward` is asked once a message. It walks the subject
//! and both patterns, once more for each reference, and takes no block but that of the mapped subject.

mod fault;
mod filling;
mod one_way;

pub use crate::{MapError, MappingError};
pub use fault::one_way_fault;
pub use one_way::OneWay;
