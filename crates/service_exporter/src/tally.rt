//! What is known of how many routes live, so that they needn't be counted for each request.
//!
//! `reserve` counts them only where an exporter has 65,536 slots or more in memory, and it isn't known already whether too many
//! live. One count tells how many live from then on, and up to which moment all of them do, and each route that is opened or
//! ended is counted on or off: so the routes are walked about once a millisecond at most.
ghost use Rattle.std.specs.Prelude.{◌≡◌, ◌≤◌, ◌<◌, ◌+◌, ◌++◌, ◌∷◌, [], ℕ, List, true, length, if◌then◌else◌};
ghost use Rattle.service_exporter.specs.Routes.{Numbered, living, lives};
ghost use Rattle.service_exporter.specs.Tally.{IsTallied};

use crate::Route;

/// How many routes of an exporter may live.
pub(crate) const MOST: usize = 65_536;

/// How many routes live, as far as that is known. A route that is dead at a moment is dead at each later one: so if no more
/// than so many live at a moment, no more do later, and if no fewer live at a moment, no fewer did before.
#[derive(Clone, Copy, Debug)]
pub(crate) struct Tally {
    /// From this moment on no more than `most` live. Above 65,536 it tells nothing.
    pub since: u64,
    pub most: usize,
    /// Up to this moment no fewer than `least` live.
    pub until: u64,
    pub least: usize,
}

impl Tally {
    /// The tally that tells nothing.
    pub fn unknown() -> Tally
        ensures { (rs : List Numbered) → IsTallied result rs }
    {
        Tally {
            since: 0,
            most: usize::MAX,
            until: 0,
            least: 0,
        }
    }

    /// Whether it is known that no more than so many live at a moment.
    pub fn is_within(&self, most: usize, now: u64) -> bool
        requires { most ≤ 65536 }
        ensures { (rs : List Numbered) → result ≡ true → IsTallied self.now rs → length (living now rs) ≤ most }
    {
        self.since <= now && self.most <= most
    }

    /// Whether it is known that more than so many live at a moment.
    pub fn is_over(&self, most: usize, now: u64) -> bool
        ensures { (rs : List Numbered) → result ≡ true → IsTallied self.now rs → most < length (living now rs) }
    {
        now <= self.until && most < self.least
    }

    /// Counts a route that was opened.
    pub fn add(&mut self, route: &Route)
        ensures { (rs : List Numbered) (n : ℕ) → IsTallied self.old rs → IsTallied self.new (rs ++ (n, route.now) ∷ []) }
    {
        self.most = self.most.saturating_add(1);
        if route.lives(self.until) {
            self.least = self.least.saturating_add(1);
        }
    }

    /// Counts off a route that was taken out.
    pub fn remove(&mut self, route: &Route)
        ensures { (was : List Numbered) (left : List Numbered) → ((t : ℕ) → length (living t was) ≡ length (living t left) + (if lives t route.now then 1 else 0)) → IsTallied self.old was → IsTallied self.new left }
    {
        if self.most <= MOST && route.lives(self.since) {
            self.most = self.most.saturating_sub(1);
        }
        if route.lives(self.until) {
            self.least = self.least.saturating_sub(1);
        }
    }

    /// Stays true where routes are taken out that don't live at a moment.
    pub fn let_go(&mut self, now: u64)
        ensures { (was : List Numbered) (left : List Numbered) → living now left ≡ living now was → IsTallied self.old was → IsTallied self.new left }
    {
        if self.since < now {
            self.since = now;
        }
        if self.until < now {
            self.least = 0;
        }
    }
}
