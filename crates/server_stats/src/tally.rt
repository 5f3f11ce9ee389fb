ghost use Rattle.std.specs.Prelude.{◌≡◌};

use crate::counts::{AccountCounts, TurnCounts, WorkerCounts};
use crate::looks::SessionCounts;
use std::alloc::Global;
use std::mem;

/// What a worker counts of its connections, each known by a key, in accounts, each known by its place on the board. What finds no
/// memory isn't counted.
#[derive(Drop)]
pub struct Tally {
    alloc: Global,
    /// When it is told next; the greatest number where nothing is counted.
    due: u64,
    /// How often it was told.
    rounds: u64,
    /// The turn that was counted last.
    turn: TurnCounts,
    /// The place of each connection's account, by its key.
    places: Vec<Option<usize>>,
    accounts: Vec<AccountCounts>,
    others: WorkerCounts,
}

impl Tally {
    ghost use Rattle.std.specs.Prelude.{◌+◌, ◌≢◌, ℕ, None, [], map, nat_eq, not};
    ghost use Rattle.std.specs.Io.Iter.{u64_saturate};
    ghost use Rattle.server_stats.specs.Counts.{added, no_counts, no_others, no_turn, of_connection, of_session, of_turn, since_start};
    ghost use Rattle.server_stats.specs.Tallies.{place_of, told_at, IsAdded};

    /// Returns the tally of a worker without connections. It counts where `is_on`, and takes no memory.
    pub fn new(alloc: Global, is_on: bool) -> Tally
        ensures on { not (nat_eq result.due 18446744073709551615) ≡ is_on }
        ensures rounds { result.rounds ≡ 0 }
        ensures turn { result.turn ≡ no_turn }
        ensures places { result.places.items ≡ [] }
        ensures accounts { result.accounts.items ≡ [] }
        ensures others { result.others ≡ no_others }
    {
        Tally {
            alloc,
            due: if is_on { 0 } else { u64::MAX },
            rounds: 0,
            turn: TurnCounts::none(),
            places: Vec::new(alloc),
            accounts: Vec::new(alloc),
            others: WorkerCounts::none(),
        }
    }

    /// Returns whether it counts.
    #[inline(always)]
    pub fn is_on(&self) -> bool
        ensures { result ≡ not (nat_eq self.now.due 18446744073709551615) }
    {
        self.due != u64::MAX
    }

    /// Returns when it is told next, or the greatest number where it doesn't count.
    #[inline(always)]
    pub fn due_at(&self) -> u64
        ensures { result ≡ self.now.due }
    {
        self.due
    }

    /// Fixes when it is told next, once it counts.
    pub fn tell_at(&mut self, due: u64)
        ensures { self.new ≡ record self.old { due = told_at due self.old.due } }
    {
        if self.is_on() {
            self.due = due.min(u64::MAX - 1);
        }
    }

    /// Returns how often it was told.
    pub fn rounds(&self) -> u64
        ensures { result ≡ self.now.rounds }
    {
        self.rounds
    }

    /// Notes that it was told.
    pub fn note_told(&mut self)
        ensures { self.new ≡ record self.old { rounds = u64_saturate (self.old.rounds + 1) } }
    {
        self.rounds = self.rounds.saturating_add(1);
    }

    /// Keeps what was counted in a turn until it is known whose it is.
    pub fn keep_turn(&mut self, turn: TurnCounts)
        ensures { self.new ≡ record self.old { turn = turn } }
    {
        self.turn = turn;
    }

    /// Takes out what was counted in the last turn.
    pub fn take_turn(&mut self) -> TurnCounts
        ensures turn { result ≡ self.old.turn }
        ensures rest { self.new ≡ record self.old { turn = no_turn } }
    {
        mem::replace(&mut self.turn, TurnCounts::none())
    }

    /// Forgets whose account a connection's was under this key, since another begins.
    pub fn forget(&mut self, key: usize)
        ensures forgotten { place_of key self.new.places.items ≡ None }
        ensures others { (k : ℕ) → k ≢ key → place_of k self.new.places.items ≡ place_of k self.old.places.items }
        ensures rest { self.new ≡ record self.old { places = self.new.places } }
    {
        if let Some(place) = self.places.get_mut(key) {
            *place = None;
        }
    }

    /// Notes the place of a connection's account.
    pub fn note_account(&mut self, key: usize, place: usize) {
        if self.places.len() <= key && self.places.resize(key.saturating_add(1), None).is_err() {
            return;
        }
        let is_known = place < self.accounts.len();
        if !is_known
            && self
                .accounts
                .resize(place.saturating_add(1), AccountCounts::none())
                .is_err()
        {
            return;
        }
        if let Some(noted) = self.places.get_mut(key) {
            *noted = Some(place);
        }
    }

    /// Returns the place of a connection's account, if it is known.
    fn place_of(&self, key: usize) -> Option<usize>
        ensures { result ≡ place_of key self.now.places.items }
    {
        match self.places.get(key) {
            None => None,
            Some(place) => *place,
        }
    }

    /// Adds to the counts of a connection's account, if that is known.
    fn add(&mut self, key: usize, more: AccountCounts)
        ensures added { IsAdded (place_of key self.old.places.items) more self.old.accounts.items self.new.accounts.items }
        ensures rest { self.new ≡ record self.old { accounts = self.new.accounts } }
    {
        if let Some(place) = self.place_of(key) {
            add_at(&mut self.accounts, place, more);
        }
    }

    /// Counts a turn of a connection: in its account, if that is known, and in no other.
    pub fn count_turn(&mut self, key: usize, turn: &TurnCounts)
        ensures added { IsAdded (place_of key self.old.places.items) (of_turn turn.now) self.old.accounts.items self.new.accounts.items }
        ensures rest { self.new ≡ record self.old { accounts = self.new.accounts } }
    {
        self.add(
            key,
            AccountCounts {
                sessions: 0,
                subscriptions: 0,
                waiting: 0,
                received: turn.received,
                sent: turn.sent,
                slow: turn.slow,
            },
        );
    }

    /// Counts a connection that is closed for being slow.
    pub fn count_slow(&mut self, key: usize)
        ensures added { IsAdded (place_of key self.old.places.items) (record no_counts { slow = 1 }) self.old.accounts.items self.new.accounts.items }
        ensures rest { self.new ≡ record self.old { accounts = self.new.accounts } }
    {
        self.add(
            key,
            AccountCounts {
                sessions: 0,
                subscriptions: 0,
                waiting: 0,
                received: 0,
                sent: 0,
                slow: 1,
            },
        );
    }

    /// Begins to count what stands.
    pub fn begin_look(&mut self)
        ensures accounts { self.new.accounts.items ≡ map since_start self.old.accounts.items }
        ensures rest { self.new ≡ record self.old { others = no_others; accounts = self.new.accounts } }
    {
        self.others = WorkerCounts::none();
        begin_again(self.accounts.as_mut_slice());
    }

    /// Counts a connection that stands: whether it is held, and how many bytes wait for its socket.
    pub fn count_connection(&mut self, is_held: bool, bytes: u64)
        ensures { self.new ≡ record self.old { others = added self.old.others (of_connection is_held bytes) } }
    {
        self.others = self.others.plus(WorkerCounts {
            held: u64::from(is_held),
            bytes,
        });
    }

    /// Counts the session of a connection.
    pub fn count_session(&mut self, key: usize, session: SessionCounts)
        ensures added { IsAdded (place_of key self.old.places.items) (of_session session) self.old.accounts.items self.new.accounts.items }
        ensures rest { self.new ≡ record self.old { accounts = self.new.accounts } }
    {
        self.add(
            key,
            AccountCounts {
                sessions: 1,
                subscriptions: session.subscriptions,
                waiting: session.waiting,
                received: 0,
                sent: 0,
                slow: 0,
            },
        );
    }

    /// Returns what is counted of accounts, by their places.
    pub fn accounts(&self) -> &[AccountCounts]
        ensures { result.now ≡ self.now.accounts.items }
    {
        self.accounts.as_slice()
    }

    /// Returns what else is counted.
    pub fn others(&self) -> WorkerCounts
        ensures { result ≡ self.now.others }
    {
        self.others
    }
}

ghost use Rattle.std.specs.Prelude.{Some, map};
ghost use Rattle.server_stats.specs.Counts.{since_start};
ghost use Rattle.server_stats.specs.Tallies.{IsAdded};

/// Counts what stands from nothing on.
fn begin_again(accounts: &mut [AccountCounts])
    ensures { accounts.new ≡ map since_start accounts.old }
{
    for counts in accounts.iter_mut() {
        *counts = counts.since_start();
    }
}

/// Adds to the counts in a place, if there are some.
fn add_at(accounts: &mut Vec<AccountCounts>, place: usize, more: AccountCounts)
    ensures { IsAdded (Some place) more accounts.old.items accounts.new.items }
{
    if let Some(counts) = accounts.get_mut(place) {
        *counts = counts.plus(more);
    }
}
