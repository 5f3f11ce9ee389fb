//! Connections over a hub that is this thread's alone, and the law of any calls of a connection over one hub
//! (docs/GUARANTEE.md, "A connection").

mod direct;
mod laws;

pub use direct::Direct;
pub use events::Port;
pub use laws::{any_calls, any_calls_direct};
pub use session_conn::{Conn, Output, Stall, Words};
pub use session_plan::Stage;
