ghost use Rattle.std.specs.Prelude.{◌≡◌, IfOk};

use crate::Subscription;
use base::{NoMemory, Shared};
use bytes::Bytes;
use messages::Sid;
use std::alloc::Global;
use std::marker::Model;
use subjects::{Pattern, Subject};

/// A subscription that stands. It may have several owners: what never changes of it is in one block, so that one more
/// owner is one count. A clause sees the subscription.
pub struct SharedSubscription {
    // As its SUB made it. What it has received, and its limit, stand beside it.
    made: Shared<Subscription>,
    received: u64,
    most: Option<u64>,
}

impl Drop for SharedSubscription {
    #[inline(always)]
    fn drop(self) {
        let Self {
            made: _,
            received: _,
            most: _,
        } = self;
    }
}

impl Model for SharedSubscription {
    ghost use Rattle.world_rows.specs.declared.subscription.Subscription.{Subscription};

    ghost Value = { Subscription };

    ghost view = { λ s. record s.made { received = s.received; most = s.most } };
}

impl SharedSubscription {
    ghost use Rattle.world_rows.specs.Limit.{has_ended};
    ghost use Rattle.world_rows.specs.Changes.{bumped, capped};

    /// Returns the first owner of a subscription. `NoMemory` where memory could not be had.
    pub fn of(alloc: Global, subscription: Subscription) -> Result<SharedSubscription, NoMemory>
        ensures { IfOk result (λ shared. shared ≡ subscription) }
    {
        Ok(SharedSubscription {
            received: subscription.received,
            most: subscription.most,
            made: Shared::new(alloc, subscription)?,
        })
    }

    /// Returns one more owner, which keeps what it has received and its limit as they are now. It takes no memory.
    /// `NoMemory` where there are too many owners to count.
    pub fn again(&self) -> Result<SharedSubscription, NoMemory>
        ensures { IfOk result (λ same. same ≡ self.now) }
    {
        Ok(SharedSubscription {
            made: self.made.again()?,
            received: self.received,
            most: self.most,
        })
    }

    /// Returns the number of the entry that made it.
    pub fn id(&self) -> u64
        ensures { result ≡ self.now.id }
    {
        self.made.get().id
    }

    /// Returns the connection whose session has it.
    pub fn conn(&self) -> u64
        ensures { result ≡ self.now.conn }
    {
        self.made.get().conn
    }

    /// Returns the name of the account of that session's user.
    pub fn account(&self) -> &Bytes
        ensures { result.now ≡ self.now.account }
    {
        &self.made.get().account
    }

    /// Returns what it asks for.
    pub fn subject(&self) -> &Shared<Pattern>
        ensures { result.now ≡ self.now.subject }
    {
        &self.made.get().subject
    }

    /// Returns the queue group that it is a member of, if it is of one.
    pub fn queue(&self) -> &Option<Subject>
        ensures { result.now ≡ self.now.queue }
    {
        &self.made.get().queue
    }

    /// Returns the client's own id for it.
    pub fn sid(&self) -> &Sid
        ensures { result.now ≡ self.now.sid }
    {
        &self.made.get().sid
    }

    /// Returns how many messages it has received since its SUB. It stays at 2^64 - 1.
    pub fn received(&self) -> u64
        ensures { result ≡ self.now.received }
    {
        self.received
    }

    /// Returns how many it is to receive in all, where an UNSUB has said so.
    pub fn most(&self) -> Option<u64>
        ensures { result ≡ self.now.most }
    {
        self.most
    }

    /// Returns whether it has received as many messages as it is to receive.
    fn has_ended(&self) -> bool
        ensures { result ≡ has_ended self.now }
    {
        match self.most {
            None => false,
            Some(most) => most <= self.received,
        }
    }

    /// Counts one message more. Returns whether it has ended by that.
    pub(crate) fn bump(&mut self) -> bool
        ensures after { self.new ≡ bumped self.old }
        ensures ended { result ≡ has_ended (bumped self.old) }
    {
        if self.received < u64::MAX {
            self.received += 1;
        }
        self.has_ended()
    }

    /// Sets a limit, in place of an earlier one. Returns whether it has ended by that.
    pub(crate) fn cap(&mut self, most: Option<u64>) -> bool
        ensures after { self.new ≡ capped most self.old }
        ensures ended { result ≡ has_ended (capped most self.old) }
    {
        self.most = Some(most.unwrap_or(0));
        self.has_ended()
    }
}
