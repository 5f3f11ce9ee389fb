ghost use Rattle.std.specs.Prelude.{◌≡◌};
ghost use Rattle.account_mappings.specs.weights.Weights.{is_weight};

use base::{Alike, Copying, NoMemory};
use std::alloc::Global;
use std::marker::Model;

/// How many of a hundred messages go to a destination: 1 to 100. A clause sees the number.
#[derive(Debug)]
pub struct Weight {
    percent: u64,
}

impl Drop for Weight {
    fn drop(self) {
        let Self { percent: _ } = self;
    }
}

impl Model for Weight {
    ghost use Rattle.std.specs.Prelude.{ℕ, true, ◌≡◌};
    ghost use Rattle.account_mappings.specs.weights.Weights.{is_weight};

    ghost Value = { ℕ };

    ghost view = { λ w. w.percent };

    ghost invariant = { λ w. is_weight w.percent ≡ true };
}

impl Weight {
    ghost use Rattle.std.specs.Prelude.{◌≡◌, ◌≤◌};
    ghost use Rattle.account_mappings.specs.weights.Weights.{weight_of};

    /// All messages.
    pub fn whole() -> Weight
        ensures { result ≡ 100 }
    {
        Weight { percent: 100 }
    }

    /// So many of a hundred. `None` where the number isn't 1 to 100.
    pub fn of(number: u64) -> Option<Weight>
        ensures { result ≡ weight_of number }
    {
        if is_weight(number) {
            Some(Weight { percent: number })
        } else {
            None
        }
    }

    /// The number of messages of a hundred.
    pub fn percent(&self) -> u64
        ensures number { result ≡ self.now }
        ensures some { 1 ≤ result }
        ensures most { result ≤ 100 }
    {
        self.percent
    }
}

impl Copying for Weight {
    fn copy(&self, _alloc: Global) -> Result<Weight, NoMemory> {
        Ok(Weight {
            percent: self.percent,
        })
    }
}

impl Alike for Weight {
    fn is_like(&self, other: &Weight) -> bool {
        self.percent == other.percent
    }
}

fn is_weight(number: u64) -> bool
    ensures { result ≡ is_weight number }
{
    1 <= number && number <= 100
}
