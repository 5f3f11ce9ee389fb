//! The ids of subscriptions by account and subject: a tree of patterns for each account.
ghost use Rattle.std.specs.Prelude.{◌≡◌, ◌==◌, ◌&&◌, ℕ, List, IfOk, OnOk, OnErr};
ghost use Rattle.subjects.specs.Subject.{Token};
ghost use Rattle.sublist.specs.Tree.{same_path};
ghost use Rattle.sublist.specs.Pairs as pairs;
ghost use Rattle.world_rows.specs.ids.Entries.{IsTold};
ghost use Rattle.world_rows.specs.ids.Told.{AreTold};

use crate::ids::id_cache::IdCache;
use base::NoMemory;
use std::alloc::Global;
use std::collections::HashMap;
use std::hash::RandomState;
use subjects::{Pattern, SubjectRef};
use sublist::{InsertError, Sublist};

/// The ids of subscriptions, found by their account and a subject. A clause sees which account, pattern and id the
/// trees hold. Whoever keeps the list of the subscriptions says in its invariant that the trees are the list's index.
pub struct Trees {
    alloc: Global,
    keys: RandomState,
    // Accounts stand in the policy and no client makes one, so their names need no hidden keys.
    by_account: HashMap<Vec<u8>, Sublist>,
    // What was found in the trees as they are.
    cache: IdCache,
    ghost told: { AreTold cache by_account.entries },
}

impl Drop for Trees {
    fn drop(self) {
        let Self {
            alloc: _,
            keys: _,
            by_account: _,
            cache: _,
        } = self;
    }
}

impl Trees {
    ghost use Rattle.sublist.specs.Pairs.{Pairs, matching_ids};
    ghost use Rattle.world_rows.specs.ids.Trees.{IsEmpty, IsSame, IsWith, IsWithout, IsIndexOf};

    /// Returns trees that hold nothing. Clients choose the tokens, so the tables of tokens are hashed under keys that
    /// they can't know. It takes no memory.
    pub fn new(alloc: Global, keys: RandomState) -> Trees
        ensures { IsEmpty result }
    {
        Trees {
            alloc,
            keys,
            by_account: HashMap::new(alloc),
            cache: IdCache::new(alloc),
        }
    }

    /// Adds an id under an account and a pattern. After `NoMemory` the trees hold what they held.
    pub fn insert(&mut self, account: &[u8], pattern: &Pattern, id: u64) -> Result<(), NoMemory>
        ensures ok { OnOk result (IsWith self.old account.now pattern.now id self.new) }
        ensures err { OnErr result (IsSame self.old self.new) }
    {
        self.cache.clear();
        match self.by_account.get_mut(account) {
            Some(tree) => match add(tree, pattern, id) {
                Ok(()) => Ok(()),
                Err(refused) => Err(refused),
            },
            None => {
                let key = Vec::from_slice(self.alloc, account)?;
                let tree = grown(self.alloc, self.keys, pattern, id)?;
                match self.by_account.insert(key, tree) {
                    Ok(_) => Ok(()),
                    Err(_) => Err(NoMemory),
                }
            }
        }
    }

    /// Takes an id out from under an account and a pattern, if it is there. It takes no memory.
    pub fn remove(&mut self, account: &[u8], pattern: &Pattern, id: u64)
        ensures { IsWithout self.old account.now pattern.now id self.new }
    {
        self.cache.clear();
        match self.by_account.get_mut(account) {
            None => {}
            Some(tree) => take_out(tree, pattern, id),
        }
    }

    /// Caches what `matching` answers for a subject, where it was asked for before and memory allows: then the next
    /// `matching` needs no search. The trees hold what they held.
    pub fn remember(&mut self, account: &[u8], subject: &SubjectRef<'_>)
        ensures { IsSame self.old self.new }
    {
        let _ = subject.tokens();
        let text = subject.bytes();
        if self.cache.select(account, text) {
            let mut found = Vec::new(self.alloc);
            match search(&self.by_account, account, subject, &mut found) {
                Ok(()) => self.cache.put(account, text, found),
                Err(_) => {}
            }
        }
    }

    /// Puts the ids of an account's pairs whose pattern has the subject, each once, in rising order, in the place of
    /// what was in `found`.
    pub fn matching(
        &self,
        account: &[u8],
        subject: &SubjectRef<'_>,
        found: &mut Vec<u64>,
    ) -> Result<(), NoMemory>
        ensures { OnOk result ((listing : Pairs) → IsIndexOf listing account.now self.now → found.new.items ≡ matching_ids listing subject.now) }
    {
        let _ = subject.tokens();
        match self.cache.find(account, subject.bytes()) {
            None => search(&self.by_account, account, subject, found),
            Some(ids) => {
                found.clear();
                found.extend_from_slice(ids)?;
                Ok(())
            }
        }
    }
}

/// Puts the ids of the pairs of an account's tree whose pattern has the subject in the place of what was in `found`.
fn search(
    by_account: &HashMap<Vec<u8>, Sublist>,
    account: &[u8],
    subject: &SubjectRef<'_>,
    found: &mut Vec<u64>,
) -> Result<(), NoMemory>
    ensures { OnOk result (IsTold account.now subject.now found.new.items by_account.now.entries) }
{
    match by_account.get(account) {
        None => {
            found.clear();
            Ok(())
        }
        Some(tree) => match tree.matching_into(subject, found) {
            Ok(()) => Ok(()),
            Err(refused) => Err(refused),
        },
    }
}

/// Adds a pair to a tree. Where it stands already nothing changes.
fn add(tree: &mut Sublist, pattern: &Pattern, id: u64) -> Result<(), NoMemory>
    ensures ok { OnOk result (pairs.IsWith tree.old pattern.now id tree.new) }
    ensures err { OnErr result (pairs.IsSame tree.old tree.new) }
{
    match tree.insert(pattern, id) {
        Ok(()) => Ok(()),
        Err(refused) => match refused {
            InsertError::Present => Ok(()),
            InsertError::NoMemory => Err(NoMemory),
        },
    }
}

/// Returns a tree that has one pair, and nothing else.
fn grown(alloc: Global, keys: RandomState, pattern: &Pattern, id: u64) -> Result<Sublist, NoMemory>
    ensures { IfOk result (λ tree. (p : List Token) (i : ℕ) → pairs.stands tree p i ≡ (id == i && same_path pattern.now p)) }
{
    let mut tree = Sublist::new(alloc, keys);
    add(&mut tree, pattern, id)?;
    Ok(tree)
}

/// Takes a pair out of a tree, if it stands there.
fn take_out(tree: &mut Sublist, pattern: &Pattern, id: u64)
    ensures { pairs.IsWithout tree.old pattern.now id tree.new }
{
    match tree.remove(pattern, id) {
        Ok(()) => {}
        Err(_) => {}
    }
}
