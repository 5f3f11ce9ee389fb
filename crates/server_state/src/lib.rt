//! What the threads of a server share beside the hub: mailboxes, and what the history's entries keep. It knows no socket's
//! bytes and no policy.
#![tactic(auto)]

pub mod history;
pub mod mail;
