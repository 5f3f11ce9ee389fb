ghost use Rattle.std.specs.Prelude.{◌≡◌};
ghost use Rattle.log_lines.specs.Rates.{added, fresh, in_second, let_through, admitted};

use std::mem;

/// How many lines a second had, and how many were left out since.
#[derive(Clone, Copy, Debug)]
pub struct Rate {
    /// The second, by the clock that gives the moments.
    pub second: u64,
    /// How many lines it had.
    pub had: u64,
    /// How many were left out since the last one that was let through.
    pub left_out: u64,
}

impl Rate {
    /// Returns the rate of who has told nothing.
    pub fn new() -> Rate
        ensures { result ≡ fresh }
    {
        Rate {
            second: 0,
            had: 0,
            left_out: 0,
        }
    }

    /// Lets a line through, if its second had fewer than `most`, and returns how many were left out before it. Else it
    /// is counted as left out.
    pub fn admit(&mut self, second: u64, most: u64) -> Option<u64>
        ensures result { result ≡ let_through most (in_second second self.old) }
        ensures counted { self.new ≡ admitted most (in_second second self.old) }
    {
        if self.second != second {
            self.second = second;
            self.had = 0;
        }
        if self.had < most {
            self.had += 1;
            return Some(mem::replace(&mut self.left_out, 0));
        }
        self.left_out = self.left_out.saturating_add(1);
        None
    }

    /// Counts lines that were left out elsewhere.
    pub fn add_left_out(&mut self, more: u64)
        ensures { self.new ≡ added more self.old }
    {
        self.left_out = self.left_out.saturating_add(more);
    }
}
