//! The text of each line of a server's log (docs/OPERATING.md, "What the server tells"), what a client's CONNECT says of its
//! program, and how many lines are let through. It knows no thread, no socket and no policy.
#![tactic(auto)]

mod line;
mod notice;
mod program;
mod rate;

pub use line::line_of;
pub use notice::{
    Denial, Ending, Invalid, Notice, Program, Slowness, Started, Unrouted, What, what_of,
};
pub use program::ProgramTexts;
pub use rate::Rate;
pub use reply_grants::GrantEnd;
