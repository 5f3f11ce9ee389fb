ghost use Rattle.std.specs.Prelude.{◌≡◌, ◌≤◌, ◌<◌, ◌^◌, ⊤, MatchOption, length};
ghost use Rattle.std.specs.Char.{is_ascii_digit};
ghost use Rattle.std.specs.List.{prefix_len};
ghost use Rattle.base.specs.decimal.Short.{short_number};

use crate::number_of;

/// How many digits a text begins with.
#[tactic(auto, using(crate::proofs::decimal::Few::within))]
pub fn count_digits(text: &[u8]) -> usize
    ensures digits { result ≡ prefix_len is_ascii_digit text.now }
    ensures within { result ≤ length text.now }
{
    text.iter().take_while(|b| b.is_ascii_digit()).count()
}

/// The number that 1 to `most` digits write, which 64 bits hold. `None` where the text is empty or longer, or has another byte.
pub fn short_number(digits: &[u8], most: usize) -> Option<u64>
    requires { most ≤ 19 }
    ensures number { result ≡ short_number most digits.now }
    ensures small { MatchOption result ⊤ (λ number. number < 10 ^ most) }
{
    if digits.len() > most {
        return None;
    }
    number_of(digits)
}
