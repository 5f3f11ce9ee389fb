use std::alloc::Global;
use std::collections::VecDeque;
use std::sync::{Condvar, Mutex, Wait};

/// How many bytes may wait.
const ROOM: usize = 64 * 1024 * 1024;

/// What waits to be printed.
#[derive(Drop)]
struct Queue {
    texts: VecDeque<Vec<u8>>,
    /// How many bytes they have, beside those that are being written.
    bytes: usize,
    has_ended: bool,
}

/// Texts to be printed, in order. Any thread may add some, and one prints them.
#[derive(Drop)]
pub struct Prints {
    alloc: Global,
    /// How many bytes may wait.
    room: usize,
    queue: Mutex<Queue>,
    changed: Condvar,
}

impl Prints {
    /// Returns a queue without texts, in which 64 MiB may wait.
    pub fn new(alloc: Global) -> Prints {
        Prints::with_room(alloc, ROOM)
    }

    /// Returns a queue without texts, in which so many bytes may wait.
    pub fn with_room(alloc: Global, room: usize) -> Prints {
        let queue = Queue {
            texts: VecDeque::new(alloc),
            bytes: 0,
            has_ended: false,
        };
        Prints {
            alloc,
            room,
            queue: Mutex::new(queue),
            changed: Condvar::new(),
        }
    }

    /// Adds a text. Returns false, and adds nothing, where too much waits. Without memory the text is lost.
    pub fn add<R: Wait>(&self, rt: &R, text: &[u8]) -> bool {
        let mut queue = self.queue.lock(rt);
        let bytes = queue.bytes.saturating_add(text.len());
        if bytes > self.room && queue.bytes > 0 {
            return false;
        }
        if let Ok(copy) = Vec::from_slice(self.alloc, text) {
            if queue.texts.push_back(copy).is_ok() {
                queue.bytes = bytes;
            }
        }
        drop(queue);
        self.changed.notify_one();
        true
    }

    /// Notes that nothing will be added any more.
    pub fn end<R: Wait>(&self, rt: &R) {
        let mut queue = self.queue.lock(rt);
        queue.has_ended = true;
        drop(queue);
        self.changed.notify_one();
    }

    /// Returns whether nothing will be added any more.
    pub(crate) fn has_ended<R: Wait>(&self, rt: &R) -> bool {
        let queue = self.queue.lock(rt);
        queue.has_ended
    }

    /// Waits for the next text, and takes it out. It returns `None` once nothing is left and nothing will be added.
    pub fn next<R: Wait>(&self, rt: &R) -> Option<Vec<u8>> {
        let mut queue = self.queue.lock(rt);
        for _ in rt.forever() {
            if let Some(text) = queue.texts.pop_front() {
                queue.bytes = queue.bytes.saturating_sub(text.len());
                return Some(text);
            }
            if queue.has_ended {
                return None;
            }
            queue = self.changed.wait(rt, queue);
        }
        None
    }
}
