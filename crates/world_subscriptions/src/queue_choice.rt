//! The member of each queue group that is sent a message.

mod choice;
mod groups;
mod number;

pub use choice::{Choice, Member, choose};
pub use number::chosen_number;
