//! The frames of the NATS client protocol, read from a stream in any pieces (NATS documentation, "Client Protocol"). It
//! doesn't know what a frame asks for, nor whether that is allowed.
#![tactic(auto)]

mod advance;
mod awaited;
mod buffer;
mod command;
mod fault;
mod frame;
mod front;
mod laws;
pub mod lines;
mod plain;
mod progress;
mod reader;
mod scan;
mod size;

pub use fault::{FeedError, WireFault};
pub use frame::Frame;
pub use laws::{any_pieces, cut_anywhere, faults, one_framing, spellings};
pub use reader::FrameReader;
