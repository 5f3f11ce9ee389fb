ghost use Rattle.std.specs.Prelude.{◌≡◌, ◌≢◌, ◌==◌, ◌≤◌, ◌++◌, ◌∷◌, [], false, OnOk, OnErr, AllPairs, filter, map, position, length, not, nat_eq};
ghost use Rattle.std.specs.List.{list_any, IsDistinct};

use crate::connections::Connected;
use crate::connections::connected::note_conns;
use base::NoMemory;
use indexmap::IndexSet;
use std::alloc::Global;
use std::marker::Model;

/// How many hints there are. Two connections whose numbers differ by a multiple of it share one, and one of them is found
/// by its hash.
const HINTS: usize = 4_096;

/// Connections in order, each once. A clause sees them as a list.
#[derive(Drop)]
pub struct Connections {
    conns: IndexSet<u64>,
    /// Where a connection was put down last, by its number modulo `HINTS`: mostly the place of each, found without a hash.
    hints: Vec<usize>,
}

impl Model for Connections {
    ghost use Rattle.std.specs.Prelude.{List, ℕ};

    ghost Value = { List ℕ };

    ghost view = { λ c. c.conns.keys };
}

impl Connections {
    /// Returns an empty list of connections.
    pub fn new(alloc: Global) -> Connections
        ensures { result ≡ [] }
    {
        Connections {
            conns: IndexSet::new(alloc),
            hints: Vec::new(alloc),
        }
    }

    /// Tells the prover what always holds: no connection stands twice. It does nothing when it runs.
    pub fn prove_invariant(&self)
        ensures { IsDistinct nat_eq self.now }
    {
        let _keys = self.conns.as_slice();
    }

    /// Returns where a connection may be. It is only a guess.
    #[inline(always)]
    pub fn hint(&self, conn: u64) -> usize {
        match self.hints.get((conn % HINTS as u64) as usize) {
            None => 0,
            Some(place) => *place,
        }
    }

    /// Returns the place of a connection, by its hash. Apart, so that what looks at the hint first stays small.
    #[inline(never)]
    pub fn find(&self, conn: u64) -> Option<usize>
        ensures { result ≡ position (λ k. conn == k) self.now }
    {
        let place = self.conns.get_index_of(&conn);
        place
    }

    /// Adds a connection that isn't there. `NoMemory` where memory could not be had: then nothing is added.
    pub fn push(&mut self, conn: u64) -> Result<(), NoMemory>
        requires { list_any (λ k. conn == k) self.old ≡ false }
        ensures ok { OnOk result (self.new ≡ self.old ++ conn ∷ []) }
        ensures err { OnErr result (self.new ≡ self.old) }
    {
        let place = self.conns.len();
        self.conns.insert(conn)?;
        note_hint(&mut self.hints, conn, place);
        Ok(())
    }

    /// Removes a connection.
    pub fn remove(&mut self, conn: u64)
        ensures { self.new ≡ filter (λ k. not (k == conn)) self.old }
    {
        self.conns.retain(|other| *other != conn);
        note_hints(&mut self.hints, self.conns.as_slice());
    }

    /// Notes the connections of this list in place of those that were noted. Those were no fewer, so their memory suffices.
    pub fn note_all<T: Connected>(&mut self, list: &[T])
        requires room { length list.now ≤ length self.old }
        requires apart { AllPairs (λ y z. T.connection y ≢ T.connection z) list.now }
        ensures { self.new ≡ map T.connection list.now }
    {
        note_conns(&mut self.conns, list);
        note_hints(&mut self.hints, self.conns.as_slice());
    }
}

/// Notes where a connection is, where memory for the hints can be had.
fn note_hint(hints: &mut Vec<usize>, conn: u64, place: usize) {
    if hints.is_empty() && hints.resize(HINTS, 0).is_err() {
        return;
    }
    let slot = (conn % HINTS as u64) as usize;
    if slot < hints.len() {
        hints[slot] = place;
    }
}

/// Notes where each connection is.
fn note_hints(hints: &mut Vec<usize>, conns: &[u64]) {
    for (place, conn) in conns.iter().enumerate() {
        note_hint(hints, *conn, place);
    }
}
