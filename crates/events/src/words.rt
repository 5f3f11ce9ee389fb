ghost use Rattle.std.specs.Prelude.{ℕ};

/// Where the words of messages come from. They choose the members of queue groups.
pub trait Words {
    /// A word, and what it is drawn from before and after it.
    ghost draws: { Self → ℕ → Self → Type 0 };

    /// Draws the next word.
    fn next(&mut self) -> u64
        ensures { draws self.old result self.new };
}
