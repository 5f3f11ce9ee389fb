//! The ids of subscriptions by connection and sid.
ghost use Rattle.std.specs.Prelude.{◌≡◌, ℕ, List, Some, None, IfOk, cond, nat_eq};
ghost use Rattle.std.specs.Cmp.Lexicographic.{pointwise};
ghost use Rattle.world_rows.specs.ids.Sids.{id_in};

use base::NoMemory;
use std::alloc::Global;
use std::collections::HashMap;
use std::hash::RandomState;

/// The ids of one connection's subscriptions, found by their sids.
pub type Own = HashMap<Vec<u8>, u64, RandomState>;

/// The ids of subscriptions, found by their connection and sid. A clause sees which id each connection has under which
/// sid. Whoever keeps the list of the subscriptions says in its invariant that they are the list's.
pub struct Sids {
    alloc: Global,
    keys: RandomState,
    by_conn: HashMap<u64, Own, RandomState>,
}

impl Drop for Sids {
    fn drop(self) {
        let Self {
            alloc: _,
            keys: _,
            by_conn: _,
        } = self;
    }
}

impl Sids {
    ghost use Rattle.std.specs.Prelude.{◌≡◌, MatchOption, OnOk, OnErr, length};
    ghost use Rattle.std.specs.HashMap.{IsUnique};
    ghost use Rattle.world_rows.specs.ids.Sids.{IsEmpty, IsSame, IsWith, IsWithout, IsWithoutAllOf, id_under, own_of, same_sid};

    /// Returns an index without sids. Clients choose sids, so they are hashed under keys that clients can't know. It
    /// takes no memory.
    pub fn new(alloc: Global, keys: RandomState) -> Sids
        ensures { IsEmpty result }
    {
        Sids {
            alloc,
            keys,
            by_conn: HashMap::with_hasher(alloc, keys),
        }
    }

    /// Returns the id under a connection and a sid.
    pub fn id_of(&self, conn: u64, sid: &[u8]) -> Option<u64>
        ensures { result ≡ id_under self.now conn sid.now }
    {
        match self.by_conn.get(&conn) {
            None => None,
            Some(own) => own.get(sid).copied(),
        }
    }

    /// Returns how many sids the connection has.
    pub fn count_of(&self, conn: u64) -> usize
        ensures { MatchOption (own_of self.now conn) (result ≡ 0) (λ own. (result ≡ length own.entries) × IsUnique same_sid own) }
    {
        match self.by_conn.get(&conn) {
            None => 0,
            Some(own) => own.len(),
        }
    }

    /// Puts an id under a connection and a sid. After `NoMemory` they are what they were.
    pub fn insert(&mut self, conn: u64, sid: &[u8], id: u64) -> Result<(), NoMemory>
        ensures ok { OnOk result (IsWith self.old conn sid.now id self.new) }
        ensures err { OnErr result (IsSame self.old self.new) }
    {
        let key = Vec::from_slice(self.alloc, sid)?;
        match self.by_conn.get_mut(&conn) {
            Some(own) => match own.insert(key, id) {
                Ok(_) => Ok(()),
                Err(_) => Err(NoMemory),
            },
            None => {
                let own = one_alone(self.alloc, self.keys, key, id)?;
                match self.by_conn.insert(conn, own) {
                    Ok(_) => Ok(()),
                    Err(_) => Err(NoMemory),
                }
            }
        }
    }

    /// Takes what is under a connection and a sid out. It takes no memory.
    pub fn remove(&mut self, conn: u64, sid: &[u8])
        ensures { IsWithout self.old conn sid.now self.new }
    {
        match self.by_conn.get_mut(&conn) {
            None => {}
            Some(own) => {
                own.remove(sid);
                if own.is_empty() {
                    self.by_conn.remove(&conn);
                }
            }
        }
    }

    /// Takes those of a connection out, and returns them.
    pub fn take(&mut self, conn: u64) -> Option<Own>
        ensures own { result ≡ own_of self.old conn }
        ensures left { IsWithoutAllOf self.old conn self.new }
    {
        self.by_conn.remove(&conn)
    }
}

/// Returns one sid with its id.
fn one_alone(alloc: Global, keys: RandomState, sid: Vec<u8>, id: u64) -> Result<Own, NoMemory>
    ensures { IfOk result (λ own. (other : List ℕ) → id_in (Some own) other ≡ cond (pointwise nat_eq sid.items other) (Some id) None) }
{
    let mut own = HashMap::with_hasher(alloc, keys);
    own.insert(sid, id)?;
    Ok(own)
}
