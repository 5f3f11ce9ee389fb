use crate::counts::{Account, AccountCounts, WorkerCounts};
use crate::tally::Tally;
use base::NoMemory;
use bytes::Bytes;
use std::alloc::Global;
use std::mem;
use std::sync::{Mutex, Wait};

/// What all workers of a server have counted, added up.
#[derive(Drop)]
pub struct Sums {
    pub others: WorkerCounts,
    /// The accounts that had a client since the start, the first one first.
    pub accounts: Vec<Account>,
}

/// What has been added up so far.
#[derive(Drop)]
struct Contents {
    /// How often all have been added up.
    rounds: u64,
    /// How many workers have been heard since.
    heard: usize,
    sums: Sums,
}

/// Where the workers of a server add up what they count, each once a round.
#[derive(Drop)]
pub struct Board {
    alloc: Global,
    workers: usize,
    contents: Mutex<Contents>,
}

ghost use Rattle.std.specs.Prelude.{◌≡◌, ◌+◌, IfOk, IfSome, map};
ghost use Rattle.std.specs.Io.Iter.{u64_saturate};
ghost use Rattle.server_stats.specs.Boards.{added_to, cleared, more_at, place_of};
ghost use Rattle.server_stats.specs.Counts.{added, no_others};
ghost use Rattle.server_stats.specs.Tallies.{IsTold};

/// Returns the place of the account of this name, if it is there.
fn place_of(accounts: &[Account], name: &[u8]) -> Option<usize>
    ensures { result ≡ place_of name.now accounts.now }
{
    accounts
        .iter()
        .position(|account| account.name.as_slice() == name)
}

/// Adds so much to the account in a place, if there is one.
fn add_at(accounts: &mut Vec<Account>, place: usize, more: AccountCounts)
    ensures { accounts.new.items ≡ more_at place more accounts.old.items }
{
    if let Some(account) = accounts.get_mut(place) {
        account.counts = account.counts.plus(more);
    }
}

/// Adds to accounts what is counted of each, by its place.
fn add_to(accounts: &mut Vec<Account>, more: &[AccountCounts])
    ensures { accounts.new.items ≡ added_to accounts.old.items more.now }
{
    for (place, counts) in more.iter().enumerate() {
        add_at(accounts, place, *counts);
    }
}

/// Returns copies of accounts, with what is counted of them.
fn copied(alloc: Global, accounts: &[Account]) -> Result<Vec<Account>, NoMemory>
    ensures { IfOk result (λ copies. copies.items ≡ accounts.now) }
{
    let mut copies = Vec::with_capacity(alloc, accounts.len())?;
    for account in accounts {
        let Ok(name) = account.name.clone() else {
            return Err(NoMemory);
        };
        copies.push(Account {
            name,
            counts: account.counts,
        })?;
    }
    Ok(copies)
}

/// Counts nothing of each of some accounts.
fn clear(accounts: &mut [Account])
    ensures { accounts.new ≡ map cleared accounts.old }
{
    for account in accounts.iter_mut() {
        account.counts = AccountCounts::none();
    }
}

impl Contents {
    /// Adds what a worker has counted.
    fn add(&mut self, tally: &Tally)
        ensures others { self.new.sums.others ≡ added self.old.sums.others tally.now.others }
        ensures accounts { self.new.sums.accounts.items ≡ added_to self.old.sums.accounts.items tally.now.accounts.items }
        ensures heard { self.new.heard ≡ u64_saturate (self.old.heard + 1) }
        ensures rounds { self.new.rounds ≡ self.old.rounds }
    {
        self.sums.others = self.sums.others.plus(tally.others());
        add_to(&mut self.sums.accounts, tally.accounts());
        self.heard = self.heard.saturating_add(1);
    }

    /// Takes out the sums, and begins a round. Without memory there are none.
    fn take(&mut self, alloc: Global) -> Option<Sums>
        ensures others { IfSome result (λ sums. sums.others ≡ self.old.sums.others) }
        ensures accounts { IfSome result (λ sums. sums.accounts.items ≡ self.old.sums.accounts.items) }
        ensures cleared { self.new.sums.accounts.items ≡ map cleared self.old.sums.accounts.items }
        ensures no_others { self.new.sums.others ≡ no_others }
        ensures heard { self.new.heard ≡ 0 }
        ensures rounds { self.new.rounds ≡ u64_saturate (self.old.rounds + 1) }
    {
        self.rounds = self.rounds.saturating_add(1);
        self.heard = 0;
        let others = mem::replace(&mut self.sums.others, WorkerCounts::none());
        let taken = copied(alloc, self.sums.accounts.as_slice());
        clear(self.sums.accounts.as_mut_slice());
        match taken {
            Ok(accounts) => Some(Sums { others, accounts }),
            Err(_) => None,
        }
    }
}

impl Board {
    /// Returns the board of a server with so many workers.
    pub fn new(alloc: Global, workers: usize) -> Board {
        let sums = Sums {
            others: WorkerCounts::none(),
            accounts: Vec::new(alloc),
        };
        let contents = Contents {
            rounds: 0,
            heard: 0,
            sums,
        };
        Board {
            alloc,
            workers,
            contents: Mutex::new(contents),
        }
    }

    /// Returns the place of the account of this name, which it gets where it has none. Without memory there is none.
    pub fn place_of<R: Wait>(&self, rt: &R, name: Bytes) -> Option<usize> {
        let mut contents = self.contents.lock(rt);
        if let Some(place) = place_of(contents.sums.accounts.as_slice(), name.as_slice()) {
            return Some(place);
        }
        let place = contents.sums.accounts.len();
        let account = Account {
            name,
            counts: AccountCounts::none(),
        };
        match contents.sums.accounts.push(account) {
            Ok(()) => Some(place),
            Err(_) => None,
        }
    }

    /// Adds what a worker has counted, unless it was heard since all were added up. Whoever is the last to be heard is given the
    /// sums.
    pub fn add<R: Wait>(&self, rt: &R, tally: &mut Tally) -> Option<Sums>
        ensures told { IsTold tally.old tally.new }
    {
        let mut contents = self.contents.lock(rt);
        if contents.rounds != tally.rounds() {
            return None;
        }
        contents.add(tally);
        tally.note_told();
        if contents.heard < self.workers {
            return None;
        }
        contents.take(self.alloc)
    }
}
