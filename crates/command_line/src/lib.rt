//! What the words of a command line ask for (docs/SCRIPT.md, "Statuses"). It carries out nothing, and opens no
//! file.
#![tactic(auto)]

mod comparing;
mod files;
mod keepalive;
mod options;
mod question;
mod stats;
mod words;

pub use comparing::CompareOptions;
pub use options::{LogChoice, ServeOptions, SplitOptions};
pub use question::{Question, QuestionKind};
pub use words::{Invocation, Task, WordsFault, read_words};
