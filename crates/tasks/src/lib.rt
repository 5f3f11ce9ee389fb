//! Plays a script, checks or explains a policy, names its closed sets, and returns the status (docs/SCRIPT.md, "Statuses"). It
//! knows no socket and no thread; `natsd` does the rest.
#![tactic(auto)]

mod answer;
mod check;
mod explaining;
mod fault;
mod parting;
mod playing;
mod status;

pub use fault::TaskFault;
pub use playing::play;
pub use policy_walk::ConfigFault;
pub use status::{Ran, Start, StartFault, run, run_and_tell};
