//! The number that decimal digits write.
ghost use Rattle.std.specs.Prelude.{◌≡◌, min, Some, None, if◌then◌else◌};
ghost use Rattle.std.specs.Str.Parse.{digits_value};
ghost use Rattle.base.specs.Number.{is_number};

/// The number that digits write, or `u64::MAX` if it is larger. `None` where there is no digit, or another byte.
pub fn number_of(digits: &[u8]) -> Option<u64>
    ensures { result ≡ (if is_number digits.now then Some (min (digits_value 10 digits.now) u64.MAX) else None) }
{
    if digits.is_empty() {
        return None;
    }
    let mut number = 0u64;
    for byte in digits {
        if !byte.is_ascii_digit() {
            return None;
        }
        number = number
            .saturating_mul(10)
            .saturating_add((*byte - b'0') as u64);
    }
    Some(number)
}
