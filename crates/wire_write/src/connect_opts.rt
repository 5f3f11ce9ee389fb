//! What client and server say of themselves when a connection opens: the options of a CONNECT, and the text of
//! INFO (NATS documentation, "Client Protocol"; docs/PROTOCOL.md).

mod error;
mod field;
mod info;
mod opts;

pub use error::ConnectError;
pub use info::info_text;
pub use opts::ConnectOpts;
