ghost use Rattle.std.specs.Prelude.{◌≡◌, [], length, nat_eq};
ghost use Rattle.server_socket.specs.Queues.{added, IsFirst, IsPut};

use std::alloc::Global;
use std::collections::VecDeque;
use std::marker::Model;

/// Connections that have some kind of work, by their keys, in the order in which they came to have it. A clause sees the
/// keys. Which of them are in the queue the connections themselves say. The key of a connection that is gone may be in it.
pub struct Queue {
    keys: VecDeque<usize>,
}

impl Drop for Queue {
    fn drop(self) {
        let Self { keys: _ } = self;
    }
}

impl Model for Queue {
    ghost use Rattle.std.specs.Prelude.{ℕ, List};

    ghost Value = { List ℕ };

    ghost view = { λ q. q.keys.items };
}

impl Queue {
    /// Returns an empty queue. It takes no memory.
    pub fn new(alloc: Global) -> Queue
        ensures { result ≡ [] }
    {
        Queue {
            keys: VecDeque::new(alloc),
        }
    }

    /// Returns how many keys the queue has.
    pub fn len(&self) -> usize
        ensures { result ≡ length self.now }
    {
        self.keys.len()
    }

    /// Returns whether the queue is empty.
    pub fn is_empty(&self) -> bool
        ensures { result ≡ nat_eq (length self.now) 0 }
    {
        self.keys.is_empty()
    }

    /// Takes the first out, if there is one.
    pub fn next(&mut self) -> Option<usize>
        ensures { IsFirst self.old result self.new }
    {
        let first = self.keys.pop_front();
        first
    }

    /// Puts a connection behind the others, and sets its mark `is_in`, unless that is set already. Without memory neither
    /// changes.
    pub fn put(&mut self, key: usize, is_in: &mut bool)
        ensures { IsPut key is_in.old self.old is_in.new self.new }
    {
        if !*is_in {
            *is_in = self.keys.push_back(key).is_ok();
        }
    }

    /// Puts a connection behind the others, whether or not it is in the queue, and returns whether it could. Without memory
    /// nothing changes.
    pub fn add(&mut self, key: usize) -> bool
        ensures { self.new ≡ added result key self.old }
    {
        self.keys.push_back(key).is_ok()
    }

    /// Empties the queue.
    pub fn clear(&mut self)
        ensures { self.new ≡ [] }
    {
        self.keys.clear();
    }
}
