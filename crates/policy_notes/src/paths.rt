//! Where in a policy's text a user stands, and an entry of the permissions that hold for it: their paths.

mod entry;
mod user;

pub use entry::entry_path;
pub use user::{row_path, user_path};
