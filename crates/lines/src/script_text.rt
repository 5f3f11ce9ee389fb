//! The text of scripts: what each line of one says, and how what is printed is written (docs/SCRIPT.md).

mod escapes;
mod lines;
mod output;

pub use lines::{ClientLine, Line, Progress, read_line};
pub use output::{write_closed, write_full, write_refused, write_shown};
