//! Plays scripts of clients over one hub (docs/SCRIPT.md); `sessions` has the law of any calls. It knows no socket and no
//! thread.
#![tactic(auto)]

mod client;
mod fault;
mod player;
mod policies;
mod server;
pub mod sessions;

pub use fault::LinesFault;
pub use player::play_lines;
