//! The number of the member that a word chooses.
ghost use Rattle.std.specs.Prelude.{◌≡◌, ◌≤◌};
ghost use Rattle.world_subscriptions.specs.queue_choice.Choices.{chosen_number};

/// Returns the number of the member that a word chooses of a group with so many, counted from the oldest, which is 0. The
/// word's low 32 bits decide.
#[inline(always)]
pub fn chosen_number(word: u64, count: usize) -> usize
    requires { 1 ≤ count }
    ensures { result ≡ chosen_number word count }
{
    (word % 0x1_0000_0000 % count as u64) as usize
}
