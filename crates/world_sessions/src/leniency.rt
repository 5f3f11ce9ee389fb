//! Whether a message is held back: it would be told Full of a connection to which its caller isn't lenient, or would enter
//! for one for which more waits than may.

mod held;
mod items;
mod lenient;
mod weight;

pub use held::note_held;
pub use items::items_in;
pub use lenient::{Lenient, LenientToAll};
pub use weight::bytes_of;
