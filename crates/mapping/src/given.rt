//! What stands in a subject for the wildcards of a pattern.
ghost use Rattle.std.specs.Prelude.{◌≡◌, IfOk, map};
ghost use Rattle.mapping.specs.Pairs.{stars_of, tail_of};

use base::{NoMemory, Pieces};
use std::alloc::Global;
use subjects::{Pattern, SubjectRef, is_star, is_tail};

/// The tokens that stand for the `*`s of a pattern, in order, and those that stand for its `>`. They aren't copied.
#[derive(Drop)]
pub(crate) struct Given<'a> {
    pub stars: Vec<&'a [u8]>,
    pub tail: Pieces<'a>,
}

impl<'a> Given<'a> {
    /// The tokens of a subject of the pattern, which has `count` `*`s. `NoMemory` where memory could not be had.
    pub fn of(
        alloc: Global,
        pattern: &Pattern,
        count: usize,
        subject: &SubjectRef<'a>,
    ) -> Result<Given<'a>, NoMemory>
        ensures stars { IfOk result (λ given. map (λ s. s.now) given.stars.items ≡ stars_of pattern.now subject.now) }
        ensures tail { IfOk result (λ given. given.tail ≡ tail_of pattern.now subject.now) }
    {
        let mut stars = Vec::with_capacity(alloc, count)?;
        let mut tail = subject.tokens();
        let mut places = pattern.tokens();
        while let Some(place) = places.next_piece() {
            if is_tail(place) {
                break;
            }
            match tail.next_piece() {
                None => break,
                Some(token) => {
                    if is_star(place) {
                        stars.push(token)?;
                    }
                }
            }
        }
        Ok(Given { stars, tail })
    }
}
