//! Which deny entries of its user's may refuse a standing subscription a message: found once, when it comes to stand, and
//! tested at each delivery in place of the whole list.

mod laws;
mod marks;
mod table;

pub use laws::judged_by_marks;
pub use marks::Marks;
pub use table::{DenyMarks, Stands};
