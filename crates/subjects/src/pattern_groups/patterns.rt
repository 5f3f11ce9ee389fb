ghost use Rattle.std.specs.Prelude.{◌≡◌, ◌<◌};

/// Patterns that are asked one by one, by their indexes, whether they have something.
pub trait Patterns {
    ghost use Rattle.std.specs.Prelude.{ℕ, Bool};

    ghost count: { Self → ℕ };

    ghost passes: { Self → ℕ → Bool };

    /// Whether the pattern at the index has it.
    fn passes(&self, index: usize) -> bool
        requires { index < count self.now }
        ensures { result ≡ passes self.now index };
}
