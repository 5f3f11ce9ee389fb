ghost use Rattle.std.specs.Prelude.{◌≡◌, ◌==◌, Bool};
ghost use Rattle.world_rows.specs.declared.subscription.Subscription.{Subscription};

use crate::change::{end_at, enter, take_each};
use crate::{NewSubscription, RowValues, SharedSubscription, Subscription, sids};
use base::NoMemory;
use events::{Addressed, Item, Sid};
use std::alloc::Global;
use std::hash::RandomState;
use std::marker::Model;
use subjects::SubjectRef;
use world_rows::Rows;
use world_rows::ids::{Sids, Trees};

/// How many subscriptions of a connection may stand.
const SUBSCRIPTIONS: usize = 4096;

/// The standing subscriptions. A clause sees them as a list, oldest first. The trees find those that have a subject, the
/// sids those of a connection.
pub struct Subscriptions {
    alloc: Global,
    by_id: Rows,
    trees: Trees,
    sids: Sids,
}

impl Drop for Subscriptions {
    fn drop(self) {
        let Self {
            alloc: _,
            by_id: _,
            trees: _,
            sids: _,
        } = self;
    }
}

impl Model for Subscriptions {
    ghost use Rattle.std.specs.Prelude.{List};
    ghost use Rattle.std.specs.Map.{values_of};
    ghost use Rattle.world_rows.specs.declared.subscription.Subscription.{Subscription};
    ghost use Rattle.world_subscriptions.specs.BySid.{AreSidsOf};
    ghost use Rattle.world_subscriptions.specs.Index.{IsTable};

    ghost Value = { List Subscription };

    ghost view = { λ subs. values_of subs.by_id };

    ghost invariant = { λ subs. IsTable subs.by_id subs.trees × AreSidsOf (values_of subs.by_id) subs.sids };
}

// What changes which of them stand is never drawn into the world's step: there its large locals would be cleared for each
// message.
impl Subscriptions {
    ghost use Rattle.std.specs.Prelude.{◌≡◌, ◌==◌, ◌<◌, ◌≤◌, ◌++◌, ◌∷◌, List, [], IfOk, OnOk, OnErr, All, AllPairs, false, length, map, filter, not, find, drop};
    ghost use Rattle.std.specs.Option.{option_copied};
    ghost use Rattle.world_subscriptions.specs.Subscriptions.{has_same_sid, stands, has_all, of_connection, subscription_of, having};
    ghost use Rattle.world_subscriptions.specs.Addressing.{addressed_to};
    ghost use Rattle.events.specs.Messages.{Message};
    ghost use Rattle.world_subscriptions.specs.Limit.{has_ended, unended, limited, counted};
    ghost use Rattle.world_subscriptions.specs.BySid.{id_of};
    ghost use Rattle.world_subscriptions.specs.Kept.{Apart};
    ghost use Rattle.world_subscriptions.specs.Changes.{only, bumped, capped};
    ghost use Rattle.world_subscriptions.specs.Counting.{in_turn, entered_ids, is_one_of, TellEach};
    ghost use Rattle.world_subscriptions.specs.Index.{found_by};
    ghost use Rattle.events.specs.declared.answer.Item.{Item as ItemModel};

    /// Returns the table without subscriptions. Clients choose the tokens of subjects, and sids, so what finds them is
    /// hashed under keys that they can't know.
    #[tactic(auto, unfolding(crate::specs::Kept::IsKept, crate::specs::Kept::Apart))]
    pub fn new(alloc: Global, keys: RandomState) -> Subscriptions
        ensures { result ≡ [] }
    {
        Subscriptions {
            alloc,
            by_id: Rows::new(alloc),
            trees: Trees::new(alloc, keys),
            sids: Sids::new(alloc, keys),
        }
    }

    /// Returns how many stand.
    pub fn len(&self) -> usize
        ensures { result ≡ length self.now }
    {
        self.by_id.len()
    }

    /// Tells the prover what holds of all: the ids rise, no two have one connection and sid, and none has ended.
    pub fn prove_invariant(&self)
        ensures ids { AllPairs (λ (s t : Subscription). s.id < t.id) self.now }
        ensures sids { AllPairs (λ (s t : Subscription). has_same_sid s t ≡ false) self.now }
        ensures limits { All (λ (s : Subscription). has_ended s ≡ false) self.now }
        ensures going { unended self.now ≡ self.now }
        ensures apart { Apart self.now }
    {
        let _ = &self.by_id;
    }

    /// Returns them all, oldest first.
    pub fn values(&self) -> RowValues<'_>
        ensures { result ≡ self.now }
    {
        self.by_id.values()
    }

    /// Returns the subscription of that id.
    pub fn get(&self, id: u64) -> Option<&SharedSubscription>
        ensures { option_copied result ≡ find (λ (s : Subscription). s.id == id) self.now }
    {
        let found = self.by_id.get(id);
        found
    }

    /// Returns whether a subscription of the connection stands under that sid.
    pub fn stands(&self, conn: u64, sid: &Sid) -> bool
        ensures { result ≡ stands self.now conn sid.now }
    {
        self.id_of(conn, sid).is_some()
    }

    /// Returns how many subscriptions the connection has.
    pub fn count_of(&self, conn: u64) -> usize
        ensures { result ≡ length (of_connection conn self.now) }
    {
        self.sids.count_of(conn)
    }

    /// Returns whether the connection has as many subscriptions as it may have, 4,096.
    pub fn has_all(&self, conn: u64) -> bool
        ensures { result ≡ has_all self.now conn }
    {
        SUBSCRIPTIONS <= self.sids.count_of(conn)
    }

    /// Caches which of an account have a subject, where it was asked for before and memory allows: then the next
    /// `having` needs no search. They stay what they are.
    pub fn remember(&mut self, account: &[u8], subject: &SubjectRef<'_>)
        ensures { self.new ≡ self.old }
    {
        self.trees.remember(account, subject);
    }

    /// Puts the ids of those of an account that have the subject, oldest first, in the place of what was in `ids`.
    /// `NoMemory` where memory could not be had.
    pub fn having(
        &self,
        account: &[u8],
        subject: &SubjectRef<'_>,
        ids: &mut Vec<u64>,
    ) -> Result<(), NoMemory>
        ensures { OnOk result (found_by self.now ids.new.items ≡ having account.now subject.now self.now) }
    {
        self.trees.matching(account, subject, ids)?;
        Ok(())
    }

    /// Adds a subscription, the youngest of all, which with a queue name is a member of that queue group. On `NoMemory`
    /// nothing has changed.
    #[inline(never)]
    pub fn add(&mut self, id: u64, wanted: NewSubscription) -> Result<(), NoMemory>
        requires above { All (λ (s : Subscription). s.id < id) self.old }
        requires free { stands self.old wanted.conn wanted.sid ≡ false }
        ensures ok { OnOk result (self.new ≡ self.old
            ++ subscription_of id wanted.conn wanted.account wanted.subject wanted.queue wanted.sid ∷ []) }
        ensures err { OnErr result (self.new ≡ self.old) }
    {
        let NewSubscription {
            conn,
            account,
            subject,
            queue,
            sid,
        } = wanted;
        let made = Subscription {
            id,
            conn,
            account,
            subject,
            queue,
            sid,
            received: 0,
            most: None,
        };
        let subscription = SharedSubscription::of(self.alloc, made)?;
        sids::insert(&mut self.sids, &subscription)?;
        match enter(&mut self.by_id, &mut self.trees, subscription) {
            Ok(()) => Ok(()),
            Err(refused) => {
                sids::remove(&mut self.sids, &refused);
                Err(NoMemory)
            }
        }
    }

    /// Ends the connection's subscription of that sid: at once, or once it has received `most` messages since its
    /// SUB. Where none stands nothing changes.
    #[inline(never)]
    pub fn limit(&mut self, conn: u64, sid: &Sid, most: Option<u64>)
        ensures { self.new ≡ unended (map (limited conn sid.now most) self.old) }
    {
        self.prove_invariant();
        match self.id_of(conn, sid) {
            None => {}
            Some(id) => self.limit_one(id, most),
        }
    }

    /// Returns the id of the connection's subscription of that sid.
    fn id_of(&self, conn: u64, sid: &Sid) -> Option<u64>
        ensures { result ≡ id_of self.now conn sid.now }
    {
        self.sids.id_of(conn, sid.as_slice())
    }

    /// Sets a limit for the subscription of that id, which ends where it has reached it.
    fn limit_one(&mut self, id: u64, most: Option<u64>)
        ensures { self.new ≡ unended (map (only (capped most) id) self.old) }
    {
        if self.by_id.cap(id, most) {
            end_at(&mut self.by_id, &mut self.trees, &mut self.sids, id);
        }
    }

    /// Counts one message more for the subscription of that id, which ends where that was the last that it was to
    /// receive.
    fn count_one(&mut self, id: u64)
        ensures { self.new ≡ unended (map (only bumped id) self.old) }
    {
        if self.by_id.bump(id) {
            end_at(&mut self.by_id, &mut self.trees, &mut self.sids, id);
        }
    }

    /// Counts one message more where an item tells that it has entered for the next delivery. Returns which delivery is the
    /// next one then: an import row that is reported is of none.
    #[inline(always)]
    fn count_next(&mut self, all: &[Addressed], next: usize, item: &Item) -> usize
        requires { next ≤ length all.now }
        ensures within { result ≤ length all.now }
        ensures turns { (more : List ItemModel) → in_turn (entered_ids (drop result all.now) more) self.new
            ≡ in_turn (entered_ids (drop next all.now) (item.now ∷ more)) self.old }
    {
        match all.get(next) {
            None => next,
            Some(addressed) => match item {
                Item::Entered { .. } => {
                    self.count_one(addressed.id);
                    next + 1
                }
                Item::Full { .. } => next + 1,
                Item::RouteFull(_) => next,
                Item::MapTooLong(_) => next,
                Item::Unmapped => next,
                Item::MappedTooLong(_) => next,
            },
        }
    }

    /// Counts a message that was addressed to some of them, where it has entered: `items` are what each delivery met,
    /// in turn, and the import rows that are reported between them. Those that have received all that they were to receive end. Only those that it entered for are
    /// touched.
    #[inline(always)]
    pub fn count(&mut self, all: &[Addressed], items: &[Item])
        ensures turns { self.new ≡ in_turn (entered_ids all.now items.now) self.old }
        ensures counted { (m : Message) (p : Subscription → Bool) → all.now ≡ map (addressed_to m) (filter p self.old)
            → TellEach all.now items.now → self.new ≡ unended (map (counted items.now) self.old) }
    {
        self.prove_invariant();
        self.count_each(all, items);
    }

    /// Counts a message where it has entered, one delivery after the other.
    fn count_each(&mut self, all: &[Addressed], items: &[Item])
        ensures { self.new ≡ in_turn (entered_ids all.now items.now) self.old }
    {
        let mut next = 0;
        for item in items {
            next = self.count_next(all, next, item);
        }
    }

    /// Removes those of a connection. No other is touched.
    #[inline(never)]
    pub fn remove(&mut self, conn: u64)
        ensures { self.new ≡ filter (λ (s : Subscription). not (s.conn == conn)) self.old }
    {
        match self.sids.take(conn) {
            None => {}
            Some(own) => take_each(&mut self.by_id, &mut self.trees, &own),
        }
    }

    /// Removes the one of that id, if it stands.
    fn remove_one(&mut self, id: u64)
        ensures { self.new ≡ filter (λ (s : Subscription). not (s.id == id)) self.old }
    {
        end_at(&mut self.by_id, &mut self.trees, &mut self.sids, id);
    }

    /// Removes those of these ids. No other is touched.
    #[inline(never)]
    pub fn remove_each(&mut self, ids: &[u64])
        ensures { self.new ≡ filter (λ (s : Subscription). not (is_one_of ids.now s)) self.old }
    {
        for id in ids {
            self.remove_one(*id);
        }
    }
}
