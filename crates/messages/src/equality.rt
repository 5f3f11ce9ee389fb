//! Whether two messages are equal.

use crate::Message;
use base::{Alike, are_same_bytes};

impl Alike for Message {
    fn is_like(&self, other: &Message) -> bool {
        self.subject().is_like(&other.subject())
            && self.reply().is_like(&other.reply())
            && are_same_bytes(self.head(), other.head())
            && are_same_bytes(self.payload(), other.payload())
    }
}
