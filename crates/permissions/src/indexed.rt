//! Permissions with the indexes of their lists.
ghost use Rattle.std.specs.Prelude.{◌≡◌, IfOk};
ghost use Rattle.permissions.specs.Indexes.{AreIndexed, AreIndexesOf, IsIndexOf};

use base::NoMemory;
use policy_doc::permission_doc::{Direction, PermDoc, PermEntry};
use std::alloc::Global;
use subjects::pattern_groups::PatternIndex;

/// The indexes of a direction's lists.
#[derive(Debug, Drop)]
pub(crate) struct Indexes {
    /// That of the allow list, or of the empty one where none is given.
    pub allow: PatternIndex,
    /// That of the deny list.
    pub deny: PatternIndex,
}

/// From so many searches on, a verdict that is remembered is cheaper than the lists'.
const DEAR: usize = 8;

/// A user's permissions with the indexes of its lists.
#[derive(Debug, Drop)]
pub(crate) struct Indexed {
    pub lists: PermDoc,
    pub publish: Indexes,
    pub subscribe: Indexes,
    /// Whether a verdict on a publish takes many searches.
    pub is_dear: bool,
}

impl Indexed {
    /// Permissions with the indexes of their lists. `NoMemory` where memory could not be had.
    pub fn of(alloc: Global, lists: PermDoc) -> Result<Indexed, NoMemory>
        ensures kept { IfOk result (λ indexed. indexed.lists ≡ lists) }
        ensures indexes { IfOk result AreIndexed }
    {
        let publish = Indexes::of(alloc, &lists.publish)?;
        let subscribe = Indexes::of(alloc, &lists.subscribe)?;
        let is_dear = DEAR <= publish.searches();
        Ok(Indexed {
            lists,
            publish,
            subscribe,
            is_dear,
        })
    }
}

impl Indexes {
    /// How many searches a question makes in both lists.
    fn searches(&self) -> usize {
        self.allow.searches().saturating_add(self.deny.searches())
    }

    /// The indexes of a direction's lists.
    fn of(alloc: Global, rules: &Direction) -> Result<Indexes, NoMemory>
        ensures { IfOk result (AreIndexesOf rules.now) }
    {
        let deny = index_of(alloc, rules.deny.as_slice())?;
        match &rules.allow {
            None => Ok(Indexes {
                allow: index_of(alloc, &[])?,
                deny,
            }),
            Some(entries) => Ok(Indexes {
                allow: index_of(alloc, entries.as_slice())?,
                deny,
            }),
        }
    }
}

/// The index of entries, by their patterns.
fn index_of(alloc: Global, entries: &[PermEntry]) -> Result<PatternIndex, NoMemory>
    ensures { IfOk result (IsIndexOf entries.now) }
{
    let mut patterns = Vec::with_capacity(alloc, entries.len())?;
    for entry in entries {
        patterns.push(&entry.subject)?;
    }
    let index = PatternIndex::of(alloc, patterns.as_slice())?;
    Ok(index)
}
