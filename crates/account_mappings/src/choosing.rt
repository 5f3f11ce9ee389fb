//! Which destination a word draws.
ghost use Rattle.std.specs.Prelude.{◌≡◌, ◌<◌};
ghost use Rattle.account_mappings.specs.Drawing.{chosen, draw_of, weights_of};

use crate::Destination;

/// Returns one of a hundred draws, by the upper half of a word.
pub fn draw_of(word: u64) -> u64
    ensures draw { result ≡ draw_of word }
    ensures few { result < 100 }
{
    word / 0x1_0000_0000 % 100
}

/// Returns the first destination at which the weights so far add up to more than the draw.
pub(crate) fn chosen(destinations: &[Destination], draw: u64) -> Option<usize>
    requires { draw < 100 }
    ensures { result ≡ chosen draw (weights_of destinations.now) }
{
    let mut total = 0;
    for (index, destination) in destinations.iter().enumerate() {
        total += destination.percent();
        if draw < total {
            return Some(index);
        }
    }
    None
}
