//! What a verdict is on.
ghost use Rattle.std.specs.Prelude.{◌≡◌, IfOk, OnOk};
ghost use Rattle.permissions.specs.verdict_cache.Verdicts.{asked_of, asked_by};

use base::NoMemory;
use std::alloc::Global;
use std::hash::{Hash, Hasher};

/// What a user's permissions are asked for.
#[derive(Clone, Copy, Debug, PartialEq, Eq)]
pub enum Action {
    /// A publish on a subject.
    Publish,
    /// A subscription to a pattern.
    Subscribe,
    /// A delivery under a subject.
    Deliver,
}

/// What a verdict is on: whose permissions are asked, for what, with which subject or pattern, and for a subscription in a queue
/// with its name.
#[derive(Clone, Copy, Debug)]
pub struct Asking<'a> {
    /// The user's name.
    pub user: &'a [u8],
    /// What its permissions are asked for.
    pub action: Action,
    /// The text of the subject or the pattern.
    pub text: &'a [u8],
    /// The text of the queue's name, or none.
    pub queue: Option<&'a [u8]>,
}

/// The same with texts of its own.
#[derive(Debug, PartialEq, Eq, Drop)]
pub struct Asked {
    user: Vec<u8>,
    action: Action,
    text: Vec<u8>,
    queue: Vec<u8>,
    has_queue: bool,
}

// The texts tell questions apart well enough, and each further part that is hashed costs a hundred instructions.
impl Hash for Asked {
    ghost use Rattle.std.specs.Prelude.{[], ◌∷◌};
    ghost use Rattle.std.specs.Cmp.Rules.{hashing};
    ghost use Rattle.std.proofs.Common.{rules};

    ghost hash_input = { λ a. a.user.items ∷ a.text.items ∷ a.queue.items ∷ [] };

    ghost respects_eq = { Prim.search (hashing, rules) };

    fn hash<H: Hasher>(&self, state: &mut H) {
        state.write(self.user.as_slice());
        state.write(self.text.as_slice());
        state.write(self.queue.as_slice());
    }
}

impl Asked {
    /// Nothing that is asked. It takes no memory.
    pub fn nothing(alloc: Global) -> Asked {
        Asked {
            user: Vec::new(alloc),
            action: Action::Publish,
            text: Vec::new(alloc),
            queue: Vec::new(alloc),
            has_queue: false,
        }
    }

    /// Puts what is asked in the place of what was here. `NoMemory` where memory could not be had.
    pub fn set(&mut self, asking: Asking<'_>) -> Result<(), NoMemory>
        ensures { OnOk result (asked_of self.new ≡ asked_by asking.entry) }
    {
        self.user.clear();
        self.user.extend_from_slice(asking.user)?;
        self.action = asking.action;
        self.text.clear();
        self.text.extend_from_slice(asking.text)?;
        self.queue.clear();
        match asking.queue {
            None => self.has_queue = false,
            Some(queue) => {
                self.queue.extend_from_slice(queue)?;
                self.has_queue = true;
            }
        }
        Ok(())
    }

    /// Returns a copy of what is asked. `NoMemory` where memory could not be had.
    pub fn of(alloc: Global, asking: Asking<'_>) -> Result<Asked, NoMemory>
        ensures { IfOk result (λ asked. asked_of asked ≡ asked_by asking.entry) }
    {
        let mut asked = Asked::nothing(alloc);
        asked.set(asking)?;
        Ok(asked)
    }
}
