use server_log::prints::Prints;
use std::sync::Mutex;

/// What the threads that install policies share: where they print, and the epoch of the policy in force. Whoever holds its lock
/// installs, and the others wait.
#[derive(Drop)]
pub struct Installs<'a> {
    pub(crate) prints: &'a Prints,
    pub(crate) epoch: Mutex<u128>,
}

impl<'a> Installs<'a> {
    /// Returns what is shared while a server's first policy is in force.
    pub fn new(prints: &'a Prints) -> Installs<'a> {
        Installs {
            prints,
            epoch: Mutex::new(1),
        }
    }
}
