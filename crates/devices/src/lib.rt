//! Readers and writers of bytes, also without waiting; contracts say which bytes passed and whether they failed. It knows no
//! protocol and no policy, and opens no socket.
#![tactic(auto)]

mod device;
mod fault;
mod input;
mod non_blocking;

pub use device::{DeviceFailed, ReadSource, Sink, Source, WriteSink, write_all};
pub use fault::ReadFault;
pub use input::read_within;
pub use non_blocking::{NonBlocking, NonBlockingSink, NonBlockingSource};
