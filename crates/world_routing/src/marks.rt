//! The deny marks of the subscriptions that stand: made when one comes to stand, made anew for another policy, and dropped
//! after it has gone.

mod again;
mod standing;

pub use again::{Renewing, marks_again};
pub use standing::{mark_next, trim_marks};
