//! The ids that stand at one place of the tree.
ghost use Rattle.std.specs.BTreeSet.{insert_key};
ghost use Rattle.std.specs.List.{filter};
ghost use Rattle.std.specs.Ordering.{nat_cmp};
ghost use Rattle.std.specs.Prelude.{◌≡◌, ◌==◌, not, ◌++◌, ◌∷◌, [], IfOk, OnOk, OnErr};

use base::NoMemory;
use std::alloc::Global;
use std::collections::BTreeSet;

/// The ids of one pattern. Most patterns have one, which takes no block of its own.
#[derive(Drop)]
pub enum Ids {
    None,
    One(u64),
    Several(Box<BTreeSet<u64>>),
}

impl Ids {
    ghost use Rattle.std.specs.Bool.{OnTrue};
    ghost use Rattle.sublist.specs.Tree.{contains, held};

    /// Appends them, in rising order.
    pub fn append(&self, found: &mut Vec<u64>) -> Result<(), NoMemory>
        ensures { OnOk result (found.new.items ≡ found.old.items ++ held self.now) }
    {
        match self {
            Ids::None => Ok(()),
            Ids::One(id) => {
                found.push(*id)?;
                Ok(())
            }
            Ids::Several(ids) => append_set(ids, found),
        }
    }

    /// Returns whether an id is one of them.
    pub fn contains(&self, id: u64) -> bool
        ensures { result ≡ contains (held self.now) id }
    {
        match self {
            Ids::None => false,
            Ids::One(one) => *one == id,
            Ids::Several(ids) => ids.contains(&id),
        }
    }

    /// Returns whether there are none.
    pub fn is_empty(&self) -> bool
        ensures { OnTrue result (held self.now ≡ []) }
    {
        match self {
            Ids::None => true,
            Ids::One(_) => false,
            Ids::Several(ids) => ids.is_empty(),
        }
    }

    /// Adds an id. On `NoMemory` they are what they were.
    pub fn add(&mut self, alloc: Global, id: u64) -> Result<(), NoMemory>
        ensures ok { OnOk result (held self.new ≡ insert_key nat_cmp (held self.old) id) }
        ensures err { OnErr result (held self.new ≡ held self.old) }
    {
        match self {
            Ids::None => {
                *self = Ids::One(id);
                Ok(())
            }
            Ids::One(one) => {
                let both = both(alloc, *one, id)?;
                *self = Ids::Several(both);
                Ok(())
            }
            Ids::Several(ids) => match add_to(ids, id) {
                Ok(()) => Ok(()),
                Err(refused) => Err(refused),
            },
        }
    }

    /// Takes an id out, if it is one of them.
    pub fn take_out(&mut self, id: u64)
        ensures { held self.new ≡ filter (λ i. not (i == id)) (held self.old) }
    {
        match self {
            Ids::None => {}
            Ids::One(one) => {
                if *one == id {
                    *self = Ids::None;
                }
            }
            Ids::Several(ids) => take_from(ids, id),
        }
    }
}

/// Appends the ids of a set, in rising order.
fn append_set(ids: &BTreeSet<u64>, found: &mut Vec<u64>) -> Result<(), NoMemory>
    ensures { OnOk result (found.new.items ≡ found.old.items ++ ids.now.keys) }
{
    for id in ids.iter() {
        found.push(*id)?;
    }
    Ok(())
}

/// Returns a set of two ids.
fn both(alloc: Global, one: u64, other: u64) -> Result<Box<BTreeSet<u64>>, NoMemory>
    ensures { IfOk result (λ ids. ids.value.keys ≡ insert_key nat_cmp (one ∷ []) other) }
{
    let mut ids = BTreeSet::new(alloc);
    add_to(&mut ids, one)?;
    add_to(&mut ids, other)?;
    let ids = Box::new(alloc, ids)?;
    Ok(ids)
}

/// Adds an id to a set, if it isn't there.
fn add_to(ids: &mut BTreeSet<u64>, id: u64) -> Result<(), NoMemory>
    ensures ok { OnOk result (ids.new.keys ≡ insert_key nat_cmp ids.old.keys id) }
    ensures err { OnErr result (ids.new.keys ≡ ids.old.keys) }
{
    match ids.insert(id) {
        Ok(_) => Ok(()),
        Err(_) => Err(NoMemory),
    }
}

/// Takes an id out of a set, if it is there.
fn take_from(ids: &mut BTreeSet<u64>, id: u64)
    ensures { ids.new.keys ≡ filter (λ i. not (i == id)) ids.old.keys }
{
    // (it tells the prover that they rise)
    let _ = ids.len();
    ids.remove(&id);
}
