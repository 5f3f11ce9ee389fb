//! Whether two permission lists are equal, part by part.

use crate::permission_doc::{Direction, PermDoc, PermEntry, Terms};
use base::Alike;

impl Alike for PermDoc {
    fn is_like(&self, other: &PermDoc) -> bool {
        self.publish.is_like(&other.publish)
            && self.subscribe.is_like(&other.subscribe)
            && self.allow_responses.is_like(&other.allow_responses)
    }
}

impl Alike for Terms {
    fn is_like(&self, other: &Terms) -> bool {
        self.max.is_like(&other.max) && self.expires.is_like(&other.expires)
    }
}

impl Alike for Direction {
    fn is_like(&self, other: &Direction) -> bool {
        self.allow.is_like(&other.allow) && self.deny.is_like(&other.deny)
    }
}

impl Alike for PermEntry {
    fn is_like(&self, other: &PermEntry) -> bool {
        self.subject.is_like(&other.subject) && self.queue.is_like(&other.queue)
    }
}
