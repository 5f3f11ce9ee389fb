//! Sockets that are accepted, and who gives way where no more can be.

mod acceptor;

pub use acceptor::{Accepted, Acceptor, LISTENER};
