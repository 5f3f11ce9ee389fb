//! Under which subject a message is sent on.
ghost use Rattle.std.specs.Prelude.{◌≡◌, find, slice_get};
ghost use Rattle.std.specs.Option.{option_copied};
ghost use Rattle.subjects.specs.Subject.{in_set};
ghost use Rattle.account_mappings.specs.Drawing.{IsDrawn, SourceMap, drawn, is_route, mapped_by, reached, rest_of, source_of};

use crate::{AccountMap, Destination};
use base::NoMemory;
use std::alloc::Global;
use subjects::{Subject, SubjectRef};

/// Under which subject a message is sent on.
#[derive(Debug, Drop)]
pub enum Mapped {
    /// The one on which it was published: no source has it, it belongs to the responses of services, or the draw falls in a
    /// rest that isn't dropped.
    Same,
    /// Another.
    To(Subject),
    /// None: the draw falls in a rest that is dropped.
    Unmapped,
    /// None: the one that the destination with this index gives would have more than 512 tokens.
    TooLong(usize),
}

/// Returns under which subject an account's message is sent on, by its sources in order and a word, of which the upper half
/// draws. `NoMemory` where memory could not be had for the subject; nothing else takes any.
pub fn mapped_by(
    alloc: Global,
    maps: &[AccountMap],
    subject: &SubjectRef<'_>,
    word: u64,
) -> Result<Mapped, NoMemory>
    ensures { IsDrawn (mapped_by maps.now subject.now word) result }
{
    match source_of(maps, subject) {
        None => Ok(Mapped::Same),
        Some(map) => drawn(alloc, map, subject, word),
    }
}

/// Returns the source that decides where a subject is sent on: the first that has it. There is none for a subject that begins
/// with the token `_R_`, since that belongs to the responses of services.
pub fn source_of<'a>(maps: &'a [AccountMap], subject: &SubjectRef<'_>) -> Option<&'a AccountMap>
    ensures { option_copied result ≡ source_of maps.now subject.now }
{
    match first_with(maps, subject) {
        None => None,
        Some(map) => { if is_route(subject) { None } else { Some(map) } }
    }
}

fn first_with<'a>(maps: &'a [AccountMap], subject: &SubjectRef<'_>) -> Option<&'a AccountMap>
    ensures { option_copied result ≡ find (λ (m : SourceMap). in_set m.source subject.now) maps.now }
{
    maps.iter().find(|map| map.has(subject))
}

/// Returns whether a subject begins with the token `_R_`.
fn is_route(subject: &SubjectRef<'_>) -> bool
    ensures { result ≡ is_route subject.now }
{
    let mut tokens = subject.tokens();
    match tokens.next_piece() {
        None => false,
        Some(token) => token == b"_R_".as_slice(),
    }
}

/// Returns where a subject of the source is sent on.
fn drawn(
    alloc: Global,
    map: &AccountMap,
    subject: &SubjectRef<'_>,
    word: u64,
) -> Result<Mapped, NoMemory>
    ensures { IsDrawn (drawn map.now subject.now word) result }
{
    match map.chosen(word) {
        None => Ok(rest_of(map)),
        Some(index) => reached(alloc, map.destinations(), index, subject),
    }
}

/// Returns what becomes of a subject that the destination with this index takes.
fn reached(
    alloc: Global,
    destinations: &[Destination],
    index: usize,
    subject: &SubjectRef<'_>,
) -> Result<Mapped, NoMemory>
    ensures { IsDrawn (reached index (slice_get destinations.now index) subject.now) result }
{
    match destinations.get(index) {
        None => Ok(Mapped::Same),
        Some(destination) => destination.reached(alloc, index, subject),
    }
}

/// Returns what becomes of a message that no destination takes.
fn rest_of(map: &AccountMap) -> Mapped
    ensures { result ≡ rest_of map.now }
{
    if map.is_dropped() {
        Mapped::Unmapped
    } else {
        Mapped::Same
    }
}
