use base::{Copying, Items, NoMemory};
use std::alloc::Global;
use subjects::Pattern;

/// What a user may publish, what it may subscribe to, and on what terms it may respond to requests.
#[derive(Debug)]
pub struct PermDoc {
    /// What decides a publish.
    pub publish: Direction,
    /// What decides a subscription, and the messages that are sent to it.
    pub subscribe: Direction,
    /// On what terms it may respond to requests, or none. Where no publish allow list is given, terms bring the empty one.
    pub allow_responses: Option<Terms>,
}

impl Drop for PermDoc {
    fn drop(self) {
        let Self {
            publish: _,
            subscribe: _,
            allow_responses: _,
        } = self;
    }
}

/// On what terms a user may respond to requests, that is on the reply subjects of messages that it was sent.
#[derive(Clone, Copy, Debug, PartialEq, Eq)]
pub struct Terms {
    /// How many responses may pass for one request. Without it there is no bound.
    pub max: Option<u64>,
    /// For how many milliseconds they may pass. Without it there is no limit.
    pub expires: Option<u64>,
}

/// The lists of one direction. No allow list allows all; an allow list that is given, even empty,
/// denies what it doesn't cover. A deny entry wins over every allow entry.
#[derive(Debug)]
pub struct Direction {
    /// The allow list, or none.
    pub allow: Option<Items<PermEntry>>,
    /// The deny list.
    pub deny: Items<PermEntry>,
}

impl Drop for Direction {
    fn drop(self) {
        let Self { allow: _, deny: _ } = self;
    }
}

/// An entry of an allow or a deny list. In a publish list it is plain: what it has for a queue part isn't looked at.
#[derive(Debug)]
pub struct PermEntry {
    /// The pattern whose subjects the entry has.
    pub subject: Pattern,
    /// The queue part: the pattern of the queue names that the entry is for. A plain entry has none.
    pub queue: Option<Pattern>,
}

impl Drop for PermEntry {
    fn drop(self) {
        let Self {
            subject: _,
            queue: _,
        } = self;
    }
}

impl PermEntry {
    ghost use Rattle.std.specs.Prelude.{◌≡◌, ◌++◌, OnOk};
    ghost use Rattle.policy_doc.specs.permission_doc.Entries.{entry_text};

    /// Appends the entry's text: its pattern, and behind one space its queue part if it has one. `NoMemory` where
    /// memory could not be had; then a part of it may have been appended.
    pub fn write_to(&self, out: &mut Vec<u8>) -> Result<(), NoMemory>
        ensures { OnOk result (out.new.items ≡ out.old.items ++ entry_text self.now) }
    {
        out.extend_from_slice(self.subject.bytes())?;
        match &self.queue {
            None => Ok(()),
            Some(queue) => {
                out.extend_from_slice(b" ")?;
                out.extend_from_slice(queue.bytes())?;
                Ok(())
            }
        }
    }
}

impl Copying for PermDoc {
    fn copy(&self, alloc: Global) -> Result<PermDoc, NoMemory> {
        Ok(PermDoc {
            publish: self.publish.copy(alloc)?,
            subscribe: self.subscribe.copy(alloc)?,
            allow_responses: self.allow_responses,
        })
    }
}

impl Copying for Direction {
    fn copy(&self, alloc: Global) -> Result<Direction, NoMemory> {
        let allow = match &self.allow {
            Some(entries) => Some(entries.copy(alloc)?),
            None => None,
        };
        Ok(Direction {
            allow,
            deny: self.deny.copy(alloc)?,
        })
    }
}

impl Copying for PermEntry {
    fn copy(&self, alloc: Global) -> Result<PermEntry, NoMemory> {
        let queue = match &self.queue {
            Some(queue) => Some(queue.copy(alloc)?),
            None => None,
        };
        Ok(PermEntry {
            subject: self.subject.copy(alloc)?,
            queue,
        })
    }
}
