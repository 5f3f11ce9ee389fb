//! What a server tells its operator (docs/OPERATING.md, "What the server tells"), and the lines that wait to be printed. It
//! decides nothing of a message, and knows no socket.
#![tactic(auto)]

mod accounts;
mod grants;
mod level;
mod log;
mod noted;
mod party;
pub mod prints;

pub use grants::GrantEnds;
pub use level::LogLevel;
pub use log::ServerLog;
pub use log_lines::{Ending, GrantEnd, Slowness, Started, What};
pub use noted::Noted;
pub use party::Party;
