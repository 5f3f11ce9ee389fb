//! The text of a weight.
ghost use Rattle.std.specs.Prelude.{◌≡◌};
ghost use Rattle.account_mappings.specs.weights.Weights.{digits_weight, weight_written};

use crate::weights::Weight;
use base::decimal::{count_digits, short_number};

/// Returns the weight that a text writes: one to three digits, whose number is 1 to 100, and `%`. `None` where the text is
/// another. It takes no memory.
pub fn weight_written(text: &[u8]) -> Option<Weight>
    ensures { result ≡ weight_written text.now }
{
    let count = count_digits(text);
    if &text[count..] == b"%".as_slice() {
        digits_weight(&text[..count])
    } else {
        None
    }
}

/// Returns the weight that one to three digits write.
fn digits_weight(digits: &[u8]) -> Option<Weight>
    ensures { result ≡ digits_weight digits.now }
{
    match short_number(digits, 3) {
        None => None,
        Some(number) => Weight::of(number),
    }
}
