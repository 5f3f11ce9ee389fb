//! What is asked of a part of a history: of a segment, or of a hub's tail.
ghost use Rattle.std.specs.Prelude.{◌≡◌, ◌+◌, ◌*◌, if◌then◌else◌};
ghost use Rattle.hub.specs.Segments.{first_number, tail_of};
ghost use Rattle.hub.specs.joins.Joins.{has_number, is_empty, is_judged, place};

use crate::{Hub, Segment};

/// Whether an entry of the segment has that number.
pub(crate) fn has_number(segment: &Segment, number: u64) -> bool
    ensures { result ≡ has_number number segment.now }
{
    segment.opening().number() < number && number <= segment.closing().number()
}

/// Whether an entry of the hub's tail has that number.
pub(crate) fn holds_number(hub: &Hub, number: u64) -> bool
    ensures { result ≡ has_number number (tail_of hub.now) }
{
    hub.opening().number() < number && number <= hub.number()
}

/// Whether the segment has no entries.
pub(crate) fn is_empty(segment: &Segment) -> bool
    ensures { result ≡ is_empty segment.now }
{
    segment.entries().is_empty()
}

/// Whether the hub's tail has no entries.
pub(crate) fn holds_nothing(hub: &Hub) -> bool
    ensures { result ≡ is_empty (tail_of hub.now) }
{
    hub.history().is_empty()
}

/// Where the segment stands among the parts of a history.
pub(crate) fn place(segment: &Segment) -> u128
    ensures { result ≡ place segment.now }
{
    place_of(segment.opening().number(), is_empty(segment))
}

/// Where the hub's tail stands among the parts of a history.
pub(crate) fn tail_place(hub: &Hub) -> u128
    ensures { result ≡ place (tail_of hub.now) }
{
    place_of(hub.opening().number(), holds_nothing(hub))
}

/// The place of a part: by the number of its opening world, empty parts first.
fn place_of(number: u64, empty: bool) -> u128
    ensures { result ≡ 2 * number + (if empty then 0 else 1) }
{
    let after = if empty { 0 } else { 1 };
    2 * (number as u128) + after
}

/// The number of the tail's first entry, as a segment has it.
pub(crate) fn tail_first_number(hub: &Hub) -> u64
    ensures { result ≡ first_number (tail_of hub.now) }
{
    hub.opening().number().saturating_add(1)
}

/// Whether the segment doesn't stand behind a tail with entries.
pub(crate) fn is_judged(segment: &Segment, hub: &Hub) -> bool
    ensures { result ≡ is_judged hub.now segment.now }
{
    holds_nothing(hub) || place(segment) <= tail_place(hub)
}
