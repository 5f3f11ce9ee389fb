//! Decimal digits: how many a text begins with, and the number of a few.

mod digits;

pub use digits::{count_digits, short_number};
