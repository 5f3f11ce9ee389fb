ghost use Rattle.std.specs.Prelude.{◌≡◌, ◌≤◌, ⊤, MatchOption, Some};
ghost use Rattle.policy_walk.specs.Durations.{unit_ms, duration_by, duration_of};

use base::decimal::{count_digits, short_number};

/// How many digits a duration has at most.
const MOST_DIGITS: usize = 9;

/// The milliseconds of a duration's text: 1 to 9 decimal digits and a unit, which is `ms`, `s`, `m` or `h`. `None` where
/// the text is another, or is of no millisecond. No memory is taken.
pub fn read_duration(text: &[u8]) -> Option<u64>
    ensures { result ≡ duration_of text.now }
{
    let count = count_digits(text);
    match unit_of(&text[count..]) {
        None => None,
        Some(unit) => times(&text[..count], unit),
    }
}

/// How many milliseconds a unit has.
fn unit_of(unit: &[u8]) -> Option<u64>
    ensures unit { result ≡ unit_ms unit.now }
    ensures small { MatchOption result ⊤ (λ ms. ms ≤ 3600000) }
{
    match unit {
        b"ms" => Some(1),
        b"s" => Some(1_000),
        b"m" => Some(60_000),
        b"h" => Some(3_600_000),
        _ => None,
    }
}

/// The milliseconds of a number of units. `None` where the digits are more than 9, or write 0 or no number.
fn times(digits: &[u8], unit: u64) -> Option<u64>
    requires { unit ≤ 3600000 }
    ensures { result ≡ duration_by digits.now (Some unit) }
{
    match short_number(digits, MOST_DIGITS) {
        None => None,
        Some(number) => {
            if number == 0 {
                None
            } else {
                Some(number * unit)
            }
        }
    }
}
