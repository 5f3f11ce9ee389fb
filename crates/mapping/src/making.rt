//! The numbers of wildcards on either side.
ghost use Rattle.std.specs.Prelude.{◌≡◌, ◌==◌, ◌≤◌, IfOk, length};
ghost use Rattle.std.specs.List.{position, position_or_len, range_with_len};
ghost use Rattle.mapping.specs.Pairs.{inverse};

use base::NoMemory;
use std::alloc::Global;

/// The numbers from 1 to `count`.
pub(crate) fn first_numbers(alloc: Global, count: usize) -> Result<Vec<usize>, NoMemory>
    requires { count ≤ 512 }
    ensures { IfOk result (λ numbers. numbers.items ≡ range_with_len 1 count) }
{
    let mut numbers = Vec::with_capacity(alloc, count)?;
    for number in 1..count + 1 {
        numbers.push(number)?;
    }
    Ok(numbers)
}

/// The place of each number from 1 to `count` among the references, counted from 1.
pub(crate) fn inverse(
    alloc: Global,
    count: usize,
    references: &[usize],
) -> Result<Vec<usize>, NoMemory>
    requires count { count ≤ 512 }
    requires few { length references.now ≤ 512 }
    ensures { IfOk result (λ numbers. numbers.items ≡ inverse count references.now) }
{
    let mut numbers = Vec::with_capacity(alloc, count)?;
    for number in 1..count + 1 {
        numbers.push(place_of(references, number) + 1)?;
    }
    Ok(numbers)
}

/// The first place of a number, or how many there are where it isn't among them.
fn place_of(numbers: &[usize], number: usize) -> usize
    ensures place { result ≡ position_or_len (λ n. n == number) numbers.now }
    ensures bound { result ≤ length numbers.now }
{
    match first_place(numbers, number) {
        None => numbers.len(),
        Some(place) => place,
    }
}

fn first_place(numbers: &[usize], number: usize) -> Option<usize>
    ensures { result ≡ position (λ n. n == number) numbers.now }
{
    numbers.iter().position(|n| *n == number)
}
