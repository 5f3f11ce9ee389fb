//! The lines that a reload prints, and how bytes are shown in a line (docs/SCRIPT.md, "A reload").

mod reloads;
mod shown;

pub use reloads::write_reload;
pub use shown::{append, put, put_all_shown};
