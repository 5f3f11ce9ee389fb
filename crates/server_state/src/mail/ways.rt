use std::sync::atomic::{AtomicU64, Ordering};

/// Which connections give way to new ones.
#[derive(Clone, Copy)]
pub(crate) enum Way {
    /// Those that linger.
    Lingering,
    /// Those without an accepted CONNECT.
    Fresh,
}

/// Who of a worker's connections would give way to a new one, and whether one is asked to.
#[derive(Drop)]
pub struct Ways {
    /// Not 0 where one is asked to.
    asked: AtomicU64,
    /// Until when the first one lingers, and the number of the first one without an accepted CONNECT: the greatest number
    /// where there is none.
    lingering: AtomicU64,
    fresh: AtomicU64,
}

impl Ways {
    /// Returns the ways of a worker none of whose connections would give way.
    pub(crate) fn new() -> Ways {
        Ways {
            asked: AtomicU64::new(0),
            lingering: AtomicU64::new(u64::MAX),
            fresh: AtomicU64::new(u64::MAX),
        }
    }

    /// Shows who would: until when the first one lingers, and the number of the first one without an accepted CONNECT.
    pub fn show(&self, lingering: Option<u64>, fresh: Option<u64>) {
        self.lingering
            .store(lingering.unwrap_or(u64::MAX), Ordering::SeqCst);
        self.fresh
            .store(fresh.unwrap_or(u64::MAX), Ordering::SeqCst);
    }

    /// Returns the number that is shown of such connections. The least goes first.
    pub(crate) fn shown(&self, way: Way) -> u64 {
        match way {
            Way::Lingering => self.lingering.load(Ordering::SeqCst),
            Way::Fresh => self.fresh.load(Ordering::SeqCst),
        }
    }

    /// Asks that the first one give way.
    pub(crate) fn ask(&self) {
        self.asked.store(1, Ordering::SeqCst);
    }

    /// Returns whether the first one was asked to give way since this was called.
    pub fn is_asked(&self) -> bool {
        self.asked.swap(0, Ordering::SeqCst) != 0
    }
}
