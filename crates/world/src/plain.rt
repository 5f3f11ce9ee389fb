//! The world as it was at a moment.
use crate::copies::{PlainSession, PlainSubscription, plain_sessions, plain_subscriptions};
use crate::world::World;
use base::{Alike, Copying, Items, NoMemory};
use policy_ready::CompiledPolicy;
use service_routes::NamedExporter;
use std::marker::Model;

/// A world as it was at a moment. A clause sees the world. What the tables share it shares: texts, policies and
/// messages have one more owner.
#[derive(Drop)]
pub struct PlainWorld {
    ready: CompiledPolicy,
    capacity: usize,
    epoch: u128,
    moment: u64,
    number: u64,
    sessions: Items<PlainSession>,
    subscriptions: Items<PlainSubscription>,
    routes: Items<NamedExporter>,
}

impl Model for PlainWorld {
    ghost use Rattle.world_routing.specs.World as worlds;

    ghost Value = { worlds.World };

    ghost view = { λ w. record {
      capacity = w.capacity;
      policy = w.ready;
      epoch = w.epoch;
      moment = w.moment;
      sessions = w.sessions;
      subscriptions = w.subscriptions;
      routes = w.routes;
      number = w.number;
    } };
}

impl PlainWorld {
    ghost use Rattle.std.specs.Prelude.{◌≡◌};
    ghost use Rattle.std.specs.Bool.{Decides};

    /// The number of the last entry before that moment, 0 before the first.
    pub fn number(&self) -> u64
        ensures { result ≡ self.now.number }
    {
        self.number
    }

    /// Whether two worlds are equal. It takes no memory.
    pub fn same(&self, other: &PlainWorld) -> bool
        ensures { Decides result (self.now ≡ other.now) }
    {
        self.number == other.number
            && self.moment == other.moment
            && self.epoch == other.epoch
            && self.capacity == other.capacity
            && self.ready.is_like(&other.ready)
            && self.sessions.is_like(&other.sessions)
            && self.subscriptions.is_like(&other.subscriptions)
            && self.routes.is_like(&other.routes)
    }
}

impl World {
    ghost use Rattle.std.specs.Prelude.{◌≡◌, IfOk};

    /// The world as it is, to be kept. `NoMemory` where memory could not be had.
    pub fn plain(&self) -> Result<PlainWorld, NoMemory>
        ensures { IfOk result (λ plain. plain ≡ self.now) }
    {
        Ok(PlainWorld {
            ready: self.ready.copy(self.alloc)?,
            capacity: self.capacity,
            epoch: self.epoch,
            moment: self.moment,
            number: self.number,
            sessions: plain_sessions(self.alloc, self.sessions.as_slice())?,
            subscriptions: plain_subscriptions(self.alloc, &self.subscriptions)?,
            routes: self.routes.plain(self.alloc, self.routes_at)?,
        })
    }
}
