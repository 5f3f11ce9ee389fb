//! Where policies come from: frames of a source, or a file that is watched.

mod frames;
mod watched_file;

pub use frames::Frames;
use std::sync::Mutex;
pub use watched_file::{WatchedFile, Watcher};

/// What comes of the policies next.
#[derive(Drop)]
pub enum Next {
    /// The text of a policy.
    Text(Vec<u8>),
    /// Nothing yet.
    Later,
    /// The input has ended: the server stops.
    End,
    /// A wrong frame, or a failed read.
    Bad,
    /// Memory could not be had for it.
    NoMemory,
}

/// Where policies come from.
pub trait Policies {
    /// Returns the next once there is one, or `Later` after a while without any. Whoever lets a descriptor go to have it again
    /// holds the lock `descriptors` meanwhile, and so does whoever opens others: so nobody else takes it.
    fn next(&mut self, descriptors: &Mutex<()>) -> Next;
}
