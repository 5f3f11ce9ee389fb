ghost use Rattle.std.specs.Prelude.{◌≡◌, ◌≢◌, false};

use crate::fresh::Fresh;
use crate::lingering::Lingering;
use mio::net::TcpStream;
use mio::{Registry, Token};
use server_log::Party;
use server_socket::pacing::many;
use server_socket::turns::{Client, Turn};
use server_socket::{Connection, Queue};
use slab::Slab;
use std::alloc::Global;
use std::collections::{HashMap, VecDeque};
use std::hash::RandomState;

/// The connections of a worker, and which of them have work.
pub struct Connections {
    pub(crate) alloc: Global,
    pub slab: Slab<Connection>,
    /// The key of each, by its number.
    pub(crate) keys: HashMap<u64, usize, RandomState>,
    /// Those with something to read, those that were cut short, those to be written to, those among them to be written to
    /// soon, and those whose turn could not be ended.
    pub ready: Queue,
    pub cut: Queue,
    pub flush: Queue,
    pub pressing: Queue,
    pub stalled: Queue,
    /// Those whose frames wait for a receiver, and when they are looked after.
    pub(crate) held: Queue,
    pub(crate) look_at: Option<u64>,
    /// Those that linger, the longest first, and those without an accepted CONNECT in the order of their numbers; others
    /// among them are passed over.
    pub lingering: VecDeque<Lingering>,
    pub(crate) fresh: VecDeque<Fresh>,
    /// For how many deliveries that wait a connection is to be written to soon.
    pub(crate) many: usize,
    /// How many more rounds work is looked for before the worker sleeps.
    pub(crate) looks: u32,
    /// When all are looked over for those that are stuck.
    pub(crate) sweep_at: u64,
}

impl Drop for Connections {
    fn drop(self) {
        let Self {
            alloc: _,
            slab: _,
            keys: _,
            ready: _,
            cut: _,
            flush: _,
            pressing: _,
            stalled: _,
            held: _,
            look_at: _,
            lingering: _,
            fresh: _,
            many: _,
            looks: _,
            sweep_at: _,
        } = self;
    }
}

impl Connections {
    ghost use Rattle.std.specs.Prelude.{ℕ, None, is_some};
    ghost use Rattle.slab.specs.Slab.{get};
    ghost use Rattle.server_connections.specs.Work.{IsAllWritten, IsWrittenTo};

    /// Returns a table without connections. `keys` are the keys of a hash map, which clients can't know; `outbox` is how many
    /// deliveries may wait for a connection. It takes no memory.
    pub fn new(alloc: Global, keys: RandomState, outbox: usize) -> Connections {
        Connections {
            alloc,
            slab: Slab::new(alloc),
            keys: HashMap::with_hasher(alloc, keys),
            ready: Queue::new(alloc),
            cut: Queue::new(alloc),
            flush: Queue::new(alloc),
            pressing: Queue::new(alloc),
            stalled: Queue::new(alloc),
            held: Queue::new(alloc),
            look_at: None,
            lingering: VecDeque::new(alloc),
            fresh: VecDeque::new(alloc),
            many: many(outbox),
            looks: 0,
            sweep_at: 0,
        }
    }

    /// Returns the key of the connection with this number, if there is one.
    pub fn key_of(&self, conn: u64) -> Option<usize> {
        self.keys.get(&conn).copied()
    }

    /// Adds a connection with its number, registers its socket, and returns its key. Without memory, or where the system
    /// refuses to watch it, its socket is closed and the result is `None`.
    pub fn add(&mut self, conn: u64, socket: TcpStream, registry: &Registry) -> Option<usize> {
        let party = Party::new(conn, socket.peer_addr().ok());
        let connection = Connection::new(Client::new(self.alloc, conn), socket, party);
        let Ok(key) = self.slab.insert(connection) else {
            return None;
        };
        if !self.watch(key, registry) || self.keys.insert(conn, key).is_err() {
            drop(self.remove(key));
            return None;
        }
        self.note_fresh(key, conn);
        Some(key)
    }

    /// Registers a connection's socket, and returns whether the system could.
    fn watch(&mut self, key: usize, registry: &Registry) -> bool {
        match self.slab.get_mut(key) {
            None => false,
            Some(it) => it.watch(registry, Token(key)),
        }
    }

    /// Opens a connection: its client is sent INFO, as far as its socket takes that.
    pub fn open(&mut self, key: usize) -> Option<Turn> {
        match self.slab.get_mut(key) {
            None => None,
            Some(it) => Some(it.open()),
        }
    }

    /// Removes a connection with its socket, and returns whether it was there.
    pub fn remove(&mut self, key: usize) -> bool
        ensures was { result ≡ is_some (get self.old.slab key) }
        ensures gone { get self.new.slab key ≡ None }
        ensures others { (other : ℕ) → other ≢ key → get self.new.slab other ≡ get self.old.slab other }
        ensures rest { self.new ≡ record self.old { slab = self.new.slab } }
    {
        self.slab.try_remove(key).is_some()
    }

    /// Forgets the number of a connection whose session is closed.
    pub fn forget(&mut self, conn: u64) {
        drop(self.keys.remove(&conn));
    }

    /// Returns whether some client is still to be written to: bytes of an earlier call wait for its socket, or it is in the queue
    /// `flush`.
    pub fn has_unwritten(&self) -> bool
        ensures none { result ≡ false → IsAllWritten self.now.slab }
    {
        for key in 0..self.slab.capacity() {
            if self.is_unwritten(key) {
                return true;
            }
        }
        false
    }

    /// Returns whether the worker has a connection whose client is still to be written to.
    fn is_unwritten(&self, key: usize) -> bool
        ensures { result ≡ false → IsWrittenTo (get self.now.slab key) }
    {
        match self.slab.get(key) {
            None => false,
            Some(it) => {
                if it.client.waits() {
                    return true;
                }
                it.queued.flush
            }
        }
    }
}
