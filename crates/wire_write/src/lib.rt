//! The texts that the server writes to a client, appended to a buffer, and the options of a CONNECT (NATS documentation,
//! "Client Protocol"). It knows no connection and no answer of the hub.
#![tactic(auto)]

mod append;
pub mod connect_opts;
mod error;
mod message;
mod number;

pub use error::{ServerError, write_err};
pub use message::{write_hmsg, write_info, write_msg, write_ok, write_pong};
