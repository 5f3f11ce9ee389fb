//! The subjects of response routes: `_R_`, the 16 hexadecimal digits of a word and a number, as `_R_.00000000000000ff.1`.
//!
//! A subject is compared with a route's token by token, so no text is made for it.

mod names;

pub use names::{is_on, number_in, route_subject};
