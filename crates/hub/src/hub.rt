//! The hub: a world, and the history of its steps.
use crate::Segment;
use base::{Copying, Items, NoMemory, Shared};
use events::{Answer, Event, HubRefusal, Message, PublishRefusal};
use policy_doc::Policy;
use policy_ready::CompiledPolicy;
use records::History;
use reply_grants::GrantEnd;
use std::alloc::Global;
use std::collections::VecDeque;
use std::hash::RandomState;
use std::marker::Model;
use std::mem;
use world::copies::Standing;
use world::{Caches, PlainWorld, World};
use world_sessions::leniency::{Lenient, LenientToAll};

/// The limits that a hub is given at its opening.
#[derive(Clone, Copy, Debug)]
pub struct Caps {
    /// How many deliveries may wait for a session, 1 to 65,536.
    pub outbox: usize,
    /// How many entries the history may hold.
    pub history: usize,
}

/// The world, and the history of its steps since its opening or last rotation. A clause sees the world, the one before
/// the entries, and the entries. Of every hub it holds that the policy in force refuses no standing subscription, that
/// the entries are a legal run, and what else `prove_invariant` tells.
///
/// ```
/// let mut hub = Hub::new(alloc, ready, caps, keys).ok()?;
/// let answer = hub.step(event).ok()?;
/// Some(answer.get().number)
/// ```
///
/// A step costs what its command does: a publish its subject's look-up and something for each receiver, a Take its deliveries, a
/// Close a look at each session, a reload one at each session and subscription. An entry more in the history costs no more,
/// however long it is.
pub struct Hub {
    alloc: Global,
    world: World,
    /// The world before the entries.
    opening: Shared<PlainWorld>,
    most: usize,
    history: History,
}

impl Drop for Hub {
    fn drop(self) {
        let Self {
            alloc: _,
            world: _,
            opening: _,
            most: _,
            history: _,
        } = self;
    }
}

impl Model for Hub {
    ghost use Rattle.std.specs.Prelude.{◌≤◌, length};
    ghost use Rattle.hub.specs.Sound.{IsSound};
    ghost use Rattle.hub.specs.History.{State, IsLegalRun};
    ghost use Rattle.hub.specs.Segments.{IsReached};

    ghost Value = { State };

    ghost view = { λ h. record {
      world = h.world;
      opening = h.opening;
      most = h.most;
      entries = h.history.entries;
    } };

    ghost invariant = { λ h. IsSound h.world
        × IsLegalRun h.opening h.history.entries h.world
        × (length h.history.entries ≤ h.most)
        × IsReached h.opening };
}

impl Hub {
    ghost use Rattle.std.specs.Prelude.{◌≡◌, ◌≤◌, ◌<◌, ◌++◌, List, false, IfOk, IfErr, OnOk, OnErr, All, length};
    ghost use Rattle.events.specs.Offers.{IsOffered};
    ghost use Rattle.events.specs.declared.answer.Entry.{Entry};
    ghost use Rattle.world.specs.World as worlds;
    ghost use Rattle.hub.specs.Sound.{IsSound};
    ghost use Rattle.hub.specs.History.{opening_state, is_history_full, stepped, IsOpening, IsLegalRun, IsStep};
    ghost use Rattle.hub.specs.Segments.{IsReached, rotated, tail_of};

    /// Opens a hub over a policy, with nobody connected and no entries. The tables of tokens are hashed under `keys`:
    /// clients choose the tokens, and must not know how they are hashed. `NoMemory` hands the policy back.
    #[tactic(auto, unfolding(crate::specs::History::IsLegalRun))]
    pub fn new(
        alloc: Global,
        ready: CompiledPolicy,
        caps: Caps,
        keys: RandomState,
    ) -> Result<Hub, (CompiledPolicy, NoMemory)>
        requires low { 1 ≤ caps.outbox }
        requires high { caps.outbox ≤ 65536 }
        ensures ok { IfOk result (λ hub. hub ≡ opening_state ready caps.outbox caps.history) }
        ensures err { IfErr result (λ refused. refused.0 ≡ ready) }
    {
        let back = match ready.copy(alloc) {
            Ok(back) => back,
            Err(refused) => return Err((ready, refused)),
        };
        let world = World::new(alloc, ready, caps.outbox, keys);
        let opening = match keep(alloc, &world) {
            Ok(opening) => opening,
            Err(refused) => return Err((back, refused)),
        };
        Ok(Hub {
            alloc,
            world,
            opening,
            most: caps.history,
            history: History::new(alloc),
        })
    }

    ghost use Rattle.world.specs.Transition.{transition, IsRefusal};
    ghost use Rattle.hub.specs.Guarantee.{KeepsGuarantee, IsGuarded};
    ghost use Rattle.hub.specs.Counts.{IsCounted};
    ghost use Rattle.hub.specs.Holding.{IsStepIf};

    /// Tells what holds of every hub (docs/GUARANTEE.md, "What always holds"): the policy in force is valid and
    /// refuses no standing subscription, each of which is of its user's account; at most 4,096 sessions stand, each of
    /// a user of that policy; no connection has two sessions, two subscriptions of one sid, or more than 4,096
    /// subscriptions; no outbox holds more than the hub's capacity; the ids of subscriptions rise, and none is above
    /// the last number. And the history is legal: its entries lead, one by one, from the world before them to the
    /// present one. They are no more than it may hold. The world before them was reached by a legal run from one with
    /// which a hub opens: in it nothing has happened, its policy is valid, and its outboxes hold 1 to 65,536. With number
    /// 0 it is such a world. Whatever entries led to it: each standing subscription has its SUB among those and the
    /// hub's, and has received as many messages as have entered for it since.
    pub fn prove_invariant(&self)
        ensures sound { IsSound self.now.world }
        ensures reached { IsReached self.now.opening }
        ensures opening { self.now.opening.number ≡ 0 → IsOpening self.now.opening }
        ensures legal { IsLegalRun self.now.opening self.now.entries self.now.world }
        ensures room { length self.now.entries ≤ self.now.most }
        ensures counts { (first : worlds.World) (past : List Entry) → IsOpening first → IsLegalRun first past self.now.opening
            → All (IsCounted (past ++ self.now.entries)) self.now.world.subscriptions }
    {
        // The loan tells the prover what the type keeps.
        let _ = &self.world;
    }

    /// Makes the step of one event: the outcome and the world after it are the transition's, and the answer is the
    /// event's entry, which stands behind all others. A refusal changes nothing and hands the event back: `HistoryFull`
    /// if the history holds as many entries as it may, or number 2^64 - 1 has been given, `SessionTaken` to a Connect of
    /// a connection with a session, `NoSession` to any other command of one without, `SessionLimit` to a Connect while
    /// 4,096 sessions stand, `NoMemory` if there is no memory. The step keeps the routing guarantee.
    #[inline(always)]
    pub fn step(&mut self, event: Event) -> Result<Answer, (Event, HubRefusal)>
        ensures transition { IsStep self.old event result self.new }
        ensures guarantee { KeepsGuarantee self.old event result self.new }
    {
        let mut held = Vec::new(self.alloc);
        match self.step_if(event, &LenientToAll, &mut held) {
            Ok(answer) => Ok(answer),
            Err((event, refusal)) => match refusal {
                PublishRefusal::By(refusal) => Err((event, refusal)),
                // Nobody holds an event back from a caller that is lenient to all.
                PublishRefusal::Held => unreachable!(),
            },
        }
    }

    /// Makes the step of an event as `step` does, unless a receiver holds the event back: the answer would tell of a full
    /// outbox, of a connection to which the caller isn't lenient and for which something waits; or the message would enter
    /// for a connection for which more waits than may by the caller's terms. Then nothing changes, the event is handed back
    /// with `Held`, and these connections are in `held`, once for each item. So each full outbox of which an answer tells is
    /// of a connection to which the caller is lenient, or was empty before the message. A refused event isn't held back.
    #[inline(always)]
    pub fn step_if<T: Lenient>(
        &mut self,
        event: Event,
        lenient: &T,
        held: &mut Vec<u64>,
    ) -> Result<Answer, (Event, PublishRefusal)>
        requires none { held.old.items ≡ [] }
        ensures transition { IsStepIf (T.terms lenient.now) self.old event result held.new.items self.new }
        ensures guarantee { IsOffered KeepsGuarantee (λ s after. after ≡ s) self.old event result self.new }
    {
        if self.is_full() {
            return Err((event, PublishRefusal::By(HubRefusal::HistoryFull)));
        }
        if self.history.reserve().is_err() {
            let refusal = self.refusal_of(&event);
            return Err((event, PublishRefusal::By(refusal)));
        }
        match self.world.apply_if(&event, lenient, held) {
            Ok((told, kept)) => {
                // The entry has all that the event has.
                drop(event);
                Ok(append(&mut self.history, told, kept))
            }
            Err(refusal) => Err((event, refusal)),
        }
    }

    /// The refusal of an event that finds no memory: the step's own, or `NoMemory` if a step would answer it.
    pub fn refusal(&self, event: &Event) -> HubRefusal
        ensures { IsRefusal (stepped self.now event.entry.now) result }
    {
        if self.is_full() {
            HubRefusal::HistoryFull
        } else {
            self.refusal_of(event)
        }
    }

    /// Whether the history has no room for an entry, or no number is left.
    fn is_full(&self) -> bool
        ensures full { result ≡ is_history_full self.now }
        ensures few { result ≡ false → length self.now.entries < 18446744073709551615 }
    {
        self.history.len() >= self.most || self.world.number() == u64::MAX
    }

    /// The refusal of an event that finds no memory for its entry: the world's, or `NoMemory`.
    fn refusal_of(&self, event: &Event) -> HubRefusal
        ensures { IsRefusal (transition self.now.world event.entry.now) result }
    {
        match self.world.refuses(event) {
            Some(refusal) => refusal,
            None => HubRefusal::NoMemory,
        }
    }

    ghost use Rattle.std.specs.Prelude.{[], IfSome, None, map, true, vec_capacity};
    ghost use Rattle.world_sessions.specs.deliveries.Replying.{is_granted};
    ghost use Rattle.world_sessions.specs.deliveries.Sessions.{session_of};
    ghost use Rattle.hub.specs.Run.{IsRun};
    ghost use Rattle.world.specs.Remembering.{IsTrue};
    ghost use Rattle.world.specs.Shown.{standing_of, subscribed_of, waiting_of};

    /// Makes the steps of the events in order, and returns the answer or the refusal of each. If there is no memory for
    /// the list of answers, the events are handed back before the first step.
    ///
    /// The routing guarantee (docs/GUARANTEE.md, "The guarantee"): for every list of events, a command that is not
    /// refused is accepted exactly when the policy in force at its step allows it. A message goes on under the subject
    /// that its account's mappings give it, and is seen in its publisher's account, across each import, and as a response
    /// in the account that asked. In each of these it enters a plain subscription's outbox exactly when account, echo,
    /// permissions and limit admit it there and there is room, and is reported Full where it is admitted and there is
    /// none; of each queue group with an admitted member exactly one is chosen. Each denial names its deciding rule or the
    /// missing allow. The policy in force denies no standing subscription.
    pub fn run(
        &mut self,
        events: Vec<Event>,
    ) -> Result<Vec<Result<Answer, (Event, HubRefusal)>>, (Vec<Event>, NoMemory)>
        ensures ok { IfOk result (λ answers. IsRun self.old events.items answers.items self.new) }
        ensures guarantee { IfOk result (λ answers. IsGuarded self.old events.items answers.items self.new) }
        ensures sound { IsSound self.new.world }
        ensures err { IfErr result (λ refused. (refused.0 ≡ events) × (self.new ≡ self.old)) }
    {
        match Vec::with_capacity(self.alloc, events.len()) {
            Ok(answers) => Ok(self.run_each(VecDeque::from(events), answers)),
            Err(_) => Err((events, NoMemory)),
        }
    }

    /// Makes the step of each event, and returns their answers in a list that has room for them.
    fn run_each(
        &mut self,
        mut events: VecDeque<Event>,
        mut answers: Vec<Result<Answer, (Event, HubRefusal)>>,
    ) -> Vec<Result<Answer, (Event, HubRefusal)>>
        requires empty { answers.items ≡ [] }
        requires room { length events.items ≤ vec_capacity answers }
        ensures run { IsRun self.old events.items result.items self.new }
        ensures guarantee { IsGuarded self.old events.items result.items self.new }
    {
        while let Some(event) = events.pop_front() {
            let answer = self.step(event);
            answers.push_reserved(answer);
        }
        answers
    }

    /// Hands out the history so far, and goes on with none: the segment has the entries, the world before them and the
    /// present one, from which the hub goes on. The tables stay as they are, and numbers go on. It takes as long as a
    /// copy of the tables, however long the history is. `NoMemory` changes nothing.
    #[tactic(auto, unfolding(crate::specs::History::IsLegalRun))]
    pub fn rotate(&mut self) -> Result<Segment, NoMemory>
        ensures segment { IfOk result (λ segment. segment ≡ tail_of self.old) }
        ensures ok { OnOk result (self.new ≡ rotated self.old) }
        ensures err { OnErr result (self.new ≡ self.old) }
    {
        let closing = keep(self.alloc, &self.world)?;
        let next = closing.again()?;
        let entries = mem::replace(&mut self.history, History::new(self.alloc));
        let opening = mem::replace(&mut self.opening, next);
        Ok(Segment::of(opening, entries, closing))
    }

    /// The world before the entries: the one that it opened with, or that of its last rotation.
    pub fn opening(&self) -> &PlainWorld
        ensures { result.now ≡ self.now.opening }
    {
        self.opening.get()
    }

    /// The number of the last entry, 0 before the first.
    pub fn number(&self) -> u64
        ensures { result ≡ self.now.world.number }
    {
        self.world.number()
    }

    /// The entries since the opening or last rotation, oldest first: one for each event that was answered. They lead,
    /// one by one, from the world before them to the present one.
    pub fn history(&self) -> &History
        ensures entries { result.now.entries ≡ self.now.entries }
        ensures legal { IsLegalRun self.now.opening result.now.entries self.now.world }
    {
        &self.history
    }

    /// The policy in force, made ready.
    pub fn ready(&self) -> &CompiledPolicy
        ensures { result.now ≡ self.now.world.policy }
    {
        self.world.ready()
    }

    /// The policy in force.
    pub fn policy(&self) -> &Policy
        ensures { result.now ≡ self.now.world.policy }
    {
        self.world.ready().policy()
    }

    /// The epoch in force: which policy it is, counted from 1.
    pub fn epoch(&self) -> u128
        ensures { result ≡ self.now.world.epoch }
    {
        self.world.epoch()
    }

    /// What is remembered for the next publishes: whom messages are for, verdicts and deny marks. All of it answers as the
    /// tables do, and the policy in force.
    pub fn caches(&self) -> &Caches
        ensures { IsTrue self.now.world result.now }
    {
        self.world.caches()
    }

    /// The standing subscriptions, oldest first; `NoMemory` if there is no memory for the list.
    pub fn standing(&self) -> Result<Items<Standing>, NoMemory>
        ensures { IfOk result (λ all. all ≡ map standing_of self.now.world.subscriptions) }
    {
        self.world.standing()
    }

    /// How many deliveries wait for the connection's session, and whether one was missed since its Connect or
    /// last Take; `None` where it has no session.
    pub fn waiting(&self, conn: u64) -> Option<(usize, bool)>
        ensures { result ≡ waiting_of self.now.world conn }
    {
        self.world.waiting(conn)
    }

    /// Why the grant that a connection's session has, or had, for a message's subject allows it no more, where that is
    /// known.
    pub fn grant_end(&self, conn: u64, message: &Message) -> Option<GrantEnd>
        ensures { IfSome (session_of self.now.world.sessions conn)
            (λ z. is_granted self.now.world.moment message.now.subject z ≡ true → result ≡ None) }
    {
        self.world.grant_end(conn, message)
    }

    /// How many subscriptions the connection has.
    pub fn subscribed(&self, conn: u64) -> usize
        ensures { result ≡ subscribed_of self.now.world conn }
    {
        self.world.subscribed(conn)
    }

    /// How many deliveries may wait for a session.
    #[inline(always)]
    pub fn capacity(&self) -> usize
        ensures { result ≡ self.now.world.capacity }
    {
        self.world.capacity()
    }
}

ghost use Rattle.std.specs.Prelude.{◌≡◌, ◌≤◌, ◌<◌, ◌++◌, ◌∷◌, [], IfOk, length};

/// Copies a world, to be shared by the parts of a history that meet there.
fn keep(alloc: Global, world: &World) -> Result<Shared<PlainWorld>, NoMemory>
    ensures { IfOk result (λ kept. kept ≡ world.now) }
{
    let plain = world.plain()?;
    let kept = Shared::new(alloc, plain)?;
    Ok(kept)
}

/// Appends the history's handle of an entry, and returns the caller's.
fn append(history: &mut History, told: Answer, kept: Answer) -> Answer
    requires room { 1 ≤ history.old.room }
    requires few { length history.old.entries < 18446744073709551615 }
    requires same { kept ≡ told }
    ensures answer { result ≡ told }
    ensures entered { history.new.entries ≡ history.old.entries ++ told ∷ [] }
{
    history.push_reserved(kept);
    told
}
