// Numbers in decimal.
ghost use Rattle.std.specs.Prelude.{◌≡◌, ◌+◌, ◌/◌, ◌%◌, ◌++◌, ◌∷◌, [], ◌<◌, ◌≤◌, length, decimal};
ghost use Rattle.std.specs.Vec.{vec_len, vec_capacity};

use crate::append::{put_array, put_short};
use itoa::Buffer;

/// The two digits of each number below 100.
static PAIRS: [u8; 200] =
    *b"00010203040506070809101112131415161718192021222324252627282930313233343536373839404142434445464748495051525354555657585960616263646566676869707172737475767778798081828384858687888990919293949596979899";

/// Appends a number below 100 with two digits, for which there is room.
#[inline(always)]
#[tactic(auto, using(crate::proofs::Digits::first_digit, crate::proofs::Digits::second_digit))]
fn put_two_digits(out: &mut Vec<u8>, number: usize)
    requires below { number < 100 }
    requires room { vec_len out.old + 2 ≤ vec_capacity out.old }
    ensures items { out.new.items ≡ out.old.items ++ ((48 + number / 10) ∷ (48 + number % 10) ∷ []) }
    ensures len { vec_len out.new ≡ vec_len out.old + 2 }
    ensures capacity { vec_capacity out.old ≤ vec_capacity out.new }
{
    let at = number * 2;
    put_array(out, [PAIRS[at], PAIRS[at + 1]]);
}

/// Appends a number below 100 in decimal, for which there is room.
#[inline(always)]
#[tactic(auto, using(crate::proofs::Digits::one, crate::proofs::Digits::two))]
pub(crate) fn put_small(out: &mut Vec<u8>, number: usize)
    requires below { number < 100 }
    requires room { vec_len out.old + length (decimal number) ≤ vec_capacity out.old }
    ensures items { out.new.items ≡ out.old.items ++ decimal number }
    ensures len { vec_len out.new ≡ vec_len out.old + length (decimal number) }
    ensures capacity { vec_capacity out.old ≤ vec_capacity out.new }
{
    if number < 10 {
        out.push_reserved(b'0' + number as u8);
    } else {
        put_two_digits(out, number);
    }
}

/// Appends a number in decimal, for which there is room.
pub(crate) fn put_number(out: &mut Vec<u8>, number: usize)
    requires room { vec_len out.old + length (decimal number) ≤ vec_capacity out.old }
    ensures items { out.new.items ≡ out.old.items ++ decimal number }
    ensures len { vec_len out.new ≡ vec_len out.old + length (decimal number) }
    ensures capacity { vec_capacity out.old ≤ vec_capacity out.new }
{
    let mut digits = Buffer::new();
    put_short(out, digits.format(number).as_bytes());
}

/// How many digits a number has. The short ones are told by themselves.
#[inline(never)]
#[tactic(auto, using(crate::proofs::Digits::one, crate::proofs::Digits::two, crate::proofs::Digits::few))]
pub(crate) fn digit_count(number: usize) -> usize
    ensures count { result ≡ length (decimal number) }
    ensures few { result ≤ 20 }
{
    if number < 10 {
        return 1;
    }
    if number < 100 {
        return 2;
    }
    let mut digits = Buffer::new();
    digits.format(number).len()
}
