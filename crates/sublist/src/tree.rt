ghost use Rattle.std.specs.Prelude.{◌≡◌, ◌↔◌, [], Err, IfOk, IsOk, IsTrue, OnOk, OnErr};
ghost use Rattle.sublist.specs.declared.error.InsertError.TheVariants.{Present};

use crate::node::Node;
use crate::{Absent, InsertError};
use base::NoMemory;
use std::alloc::Global;
use std::hash::RandomState;
use subjects::{Pattern, SubjectRef};

/// Pairs of a pattern and an id, found by subject. An id may stand with several patterns.
///
/// ```
/// let mut tree = Sublist::new(rt.alloc(), RandomState::new(&rt)?);
/// assert!(rt; tree.insert(&wildcard, 1).is_ok());
/// assert!(rt; tree.insert(&all, 2).is_ok());
/// let found = tree.matching(&subject.lend())?;
/// assert_eq!(rt; found.as_slice(), [1, 2].as_slice());
/// ```
///
/// `matching` looks up each token of the subject in a table, once for each branch of wildcards that leads to it, and sorts the ids
/// that it finds. So it costs what the subject and its receivers do, however many other patterns stand. `insert` and `remove` go
/// down the one branch of their pattern.
///
/// A clause sees which pairs stand. Whoever keeps a list of subscriptions, whose ids rise, says in its own
/// invariant that the tree is the index of the list (`IsIndexOf`): then `matching` is the list's filter.
pub struct Sublist {
    alloc: Global,
    keys: RandomState,
    root: Node,
}

impl Drop for Sublist {
    fn drop(self) {
        let Self {
            alloc: _,
            keys: _,
            root: _,
        } = self;
    }
}

impl Sublist {
    ghost use Rattle.sublist.specs.Pairs.{stands, Pairs, matching_ids, IsEmpty, IsSame, IsWith, IsWithout, IsMatching, IsIndexOf};

    /// Returns the tree without a pair. Clients choose the tokens, so the tables of tokens are hashed under keys that
    /// they can't know. It takes no memory.
    pub fn new(alloc: Global, keys: RandomState) -> Sublist
        ensures { IsEmpty result }
    {
        Sublist {
            alloc,
            keys,
            root: Node::new(),
        }
    }

    /// Adds a pair. `Present` where it stands already; `NoMemory` where it doesn't and memory could not be had.
    /// After either the same pairs stand.
    pub fn insert(&mut self, pattern: &Pattern, id: u64) -> Result<(), InsertError>
        ensures added { OnOk result (IsWith self.old pattern.now id self.new) }
        ensures present { (result ≡ Err Present) ↔ IsTrue (stands self.old pattern.now id) }
        ensures same { OnErr result (IsSame self.old self.new) }
    {
        if self.contains(pattern, id) {
            return Err(InsertError::Present);
        }
        self.root
            .insert(self.alloc, self.keys, pattern.tokens(), id)?;
        Ok(())
    }

    /// Removes a pair, and every branch that then has nothing left. `Absent` where it doesn't stand, and then
    /// the same pairs stand. It takes no memory.
    pub fn remove(&mut self, pattern: &Pattern, id: u64) -> Result<(), Absent>
        ensures removed { OnOk result (IsWithout self.old pattern.now id self.new) }
        ensures stood { IsOk result ↔ IsTrue (stands self.old pattern.now id) }
        ensures same { OnErr result (IsSame self.old self.new) }
    {
        if !self.contains(pattern, id) {
            return Err(Absent);
        }
        self.root.remove(pattern.tokens(), id);
        Ok(())
    }

    /// Returns whether a pair stands. It takes no memory.
    pub fn contains(&self, pattern: &Pattern, id: u64) -> bool
        ensures { result ≡ stands self.now pattern.now id }
    {
        self.root.contains(pattern.tokens(), id)
    }

    /// Returns the ids of the pairs whose pattern has the subject, each once, in rising order. `NoMemory` where memory
    /// could not be had for them.
    pub fn matching(&self, subject: &SubjectRef<'_>) -> Result<Vec<u64>, NoMemory>
        ensures pairs { IfOk result (λ found. IsMatching self.now subject.now found.items) }
        ensures index { IfOk result (λ found. (pairs : Pairs) → IsIndexOf pairs self.now → found.items ≡ matching_ids pairs subject.now) }
    {
        let mut found = Vec::new(self.alloc);
        self.matching_into(subject, &mut found)?;
        Ok(found)
    }

    /// Puts the ids of `matching` in the place of what was in `found`. `NoMemory` leaves it empty.
    pub fn matching_into(
        &self,
        subject: &SubjectRef<'_>,
        found: &mut Vec<u64>,
    ) -> Result<(), NoMemory>
        ensures pairs { OnOk result (IsMatching self.now subject.now found.new.items) }
        ensures index { OnOk result ((pairs : Pairs) → IsIndexOf pairs self.now → found.new.items ≡ matching_ids pairs subject.now) }
        ensures err { OnErr result (found.new.items ≡ []) }
    {
        found.clear();
        match self.root.matching(subject.tokens(), found) {
            Ok(()) => {
                found.sort_unstable();
                found.dedup();
                Ok(())
            }
            Err(refused) => {
                found.clear();
                Err(refused)
            }
        }
    }
}
