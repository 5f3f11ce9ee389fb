//! The least number at which segments and a hub's tail aren't one history.
ghost use Rattle.std.specs.Prelude.{◌≡◌, ◌<◌, ◌+◌, ◌&&◌, ◌||◌, ℕ, true, OnOk, IfSome, MatchOption, All, filter, length, nat_lt};
ghost use Rattle.std.specs.Bool.{Decides};
ghost use Rattle.std.specs.List.{list_any};
ghost use Rattle.hub.specs.Segments.{HistoryPart, IsHistoryPart, tail_of};
ghost use Rattle.hub.specs.joins.Joins.{parts_of, has_number, is_empty, place, Begins, is_judged, IsRight, IsLeastFault, AreOneHistory};
ghost use Rattle.hub.specs.joins.Search.{lesser, is_before, IsBelow, IsInPlace, IsBegun, IsClear, IsFaultOf, AreNumbered};

use crate::joins::part::{
    has_number, holds_nothing, holds_number, is_empty, is_judged, place, tail_first_number,
    tail_place,
};
use crate::{Hub, Segment};
use world::PlainWorld;

/// Checks that the segments, in any order, and the hub's tail are one history. If they aren't, it returns the least number
/// at which something is wrong: from 1 up to the hub's last entry the number doesn't stand in exactly one segment or in the
/// tail; or it is above that, and stands in a segment; or it is the first number of a part that doesn't begin in the world
/// in which the part before it ends. The tail has its first number as a segment has. Parts stand by the number of their
/// opening world, empty ones first. A segment without entries adds nothing and isn't missed, and one that stands behind a
/// tail with entries isn't judged. It takes no memory.
pub fn joins(segments: &[Segment], hub: &Hub) -> Result<(), u64>
    ensures least { IsLeastFault segments.now hub.now result }
    ensures history { OnOk result (AreOneHistory segments.now hub.now) }
{
    known_parts(segments, hub);
    match least_fault(segments, hub) {
        None => Ok(()),
        Some(number) => Err(number),
    }
}

/// Tells what every part keeps.
fn known_parts(segments: &[Segment], hub: &Hub)
    ensures parts { All IsHistoryPart (parts_of segments.now hub.now) }
    ensures numbers { AreNumbered (parts_of segments.now hub.now) }
{
    for segment in segments {
        segment.prove_invariant();
        segment.closing().number();
    }
    hub.prove_invariant();
    hub.number();
}

/// The least number at which something is wrong: 1, or the first number of a part, or the one after its last.
fn least_fault(segments: &[Segment], hub: &Hub) -> Option<u64>
    requires { AreNumbered (parts_of segments.now hub.now) }
    ensures wrong { IfSome result (λ n. IsRight segments.now hub.now n → ⊥) }
    ensures below { MatchOption result ((n : ℕ) → IsRight segments.now hub.now n) (λ least. (n : ℕ) → n < least → IsRight segments.now hub.now n) }
{
    let mut least = misplaced_after(segments, hub, 0);
    for segment in segments {
        let fault = segment_fault(segments, hub, segment);
        least = lesser(least, fault);
    }
    let fault = tail_fault(segments, hub);
    lesser(least, fault)
}

/// The lesser of two numbers that may be missing.
fn lesser(one: Option<u64>, other: Option<u64>) -> Option<u64>
    ensures { result ≡ lesser one other }
{
    match one {
        None => other,
        Some(one) => match other {
            None => Some(one),
            Some(other) => Some(one.min(other)),
        },
    }
}

/// The least number at which a segment shows that something is wrong.
fn segment_fault(segments: &[Segment], hub: &Hub, segment: &Segment) -> Option<u64>
    ensures wrong { IfSome result (IsFaultOf segments.now hub.now segment.now) }
    ensures clear { IsClear segments.now hub.now result segment.now }
{
    let first = misplaced_after(segments, hub, segment.opening().number());
    let next = misplaced_after(segments, hub, segment.closing().number());
    let unbegun = segment_unbegun(segments, hub, segment);
    lesser(lesser(first, next), unbegun)
}

/// The least number at which the tail shows that something is wrong.
fn tail_fault(segments: &[Segment], hub: &Hub) -> Option<u64>
    ensures wrong { IfSome result (IsFaultOf segments.now hub.now (tail_of hub.now)) }
    ensures clear { IsClear segments.now hub.now result (tail_of hub.now) }
{
    let first = misplaced_after(segments, hub, hub.opening().number());
    let next = misplaced_after(segments, hub, hub.number());
    let unbegun = tail_unbegun(segments, hub);
    lesser(lesser(first, next), unbegun)
}

/// The number after this one, if it doesn't stand in as many parts as it should.
fn misplaced_after(segments: &[Segment], hub: &Hub, number: u64) -> Option<u64>
    ensures wrong { IfSome result (λ n. IsInPlace segments.now hub.now n → ⊥) }
    ensures clear { IsBelow (number + 1) result → IsInPlace segments.now hub.now (number + 1) }
{
    match number.checked_add(1) {
        None => None,
        Some(next) => {
            if is_in_place(segments, hub, next) {
                None
            } else {
                Some(next)
            }
        }
    }
}

/// Whether a number stands in as many parts as it should: in one from 1 up to the hub's last entry, and in none above.
fn is_in_place(segments: &[Segment], hub: &Hub, number: u64) -> bool
    ensures { Decides result (IsInPlace segments.now hub.now number) }
{
    let due = if holds_number(hub, number) || number < 1 || number > hub.number() {
        0
    } else {
        1
    };
    count_of(segments, number) == due
}

/// How many segments have a number.
fn count_of(segments: &[Segment], number: u64) -> usize
    ensures { result ≡ length (filter (has_number number) segments.now) }
{
    segments
        .iter()
        .filter(|segment| has_number(segment, number))
        .count()
}

/// The segment's first number, if it doesn't begin in the world in which the part before it ends.
fn segment_unbegun(segments: &[Segment], hub: &Hub, segment: &Segment) -> Option<u64>
    ensures wrong { IfSome result (λ n. IsBegun segments.now hub.now segment.now n → ⊥) }
    ensures clear { (n : ℕ) → IsBelow n result → IsBegun segments.now hub.now segment.now n }
{
    if !is_judged(segment, hub) || segment_begins(segments, hub, segment) {
        None
    } else {
        Some(segment.first_number())
    }
}

/// The tail's first number, if it doesn't begin in the world in which the part before it ends.
fn tail_unbegun(segments: &[Segment], hub: &Hub) -> Option<u64>
    ensures wrong { IfSome result (λ n. IsBegun segments.now hub.now (tail_of hub.now) n → ⊥) }
    ensures clear { (n : ℕ) → IsBelow n result → IsBegun segments.now hub.now (tail_of hub.now) n }
{
    if tail_begins(segments, hub) {
        None
    } else {
        Some(tail_first_number(hub))
    }
}

/// Whether a segment that is judged begins in the world in which the part before it ends.
fn segment_begins(segments: &[Segment], hub: &Hub, segment: &Segment) -> bool
    requires { is_judged hub.now segment.now ≡ true }
    ensures { Decides result (Begins (parts_of segments.now hub.now) segment.now) }
{
    let (at, empty) = (place(segment), is_empty(segment));
    begins(segments, hub, segment.opening(), at, empty)
}

/// Whether the tail begins in the world in which the part before it ends.
fn tail_begins(segments: &[Segment], hub: &Hub) -> bool
    ensures { Decides result (Begins (parts_of segments.now hub.now) (tail_of hub.now)) }
{
    let (at, empty) = (tail_place(hub), holds_nothing(hub));
    begins(segments, hub, hub.opening(), at, empty)
}

/// Whether a part that is judged begins in the world in which the part before it ends. The tail stands before such a part
/// only if it has no entries, and so ends in the world in which it begins.
fn begins(segments: &[Segment], hub: &Hub, opening: &PlainWorld, at: u128, empty: bool) -> bool
    ensures { (q : HistoryPart) → q.opening ≡ opening.now → place q ≡ at → is_empty q ≡ empty → is_judged hub.now q ≡ true
        → Decides result (Begins (parts_of segments.now hub.now) q) }
{
    // Tells the prover that the tail is a legal run.
    hub.prove_invariant();
    let nearest = nearest_below(segments, hub, at);
    for segment in segments {
        if !leads_to(segment, opening, at, empty, nearest) {
            return false;
        }
    }
    tail_leads_to(hub, opening, at, empty, nearest)
}

/// Whether a segment, if it may be the part before one at a place, ends in the world in which that begins.
fn leads_to(segment: &Segment, opening: &PlainWorld, at: u128, empty: bool, nearest: u128) -> bool
    ensures { Decides result (is_before (place segment.now) nearest at empty ≡ true → opening.now ≡ segment.now.closing) }
{
    !is_before(place(segment), nearest, at, empty) || opening.same(segment.closing())
}

/// Whether the tail, if it may be the part before one at a place, begins in the world in which that does.
fn tail_leads_to(hub: &Hub, opening: &PlainWorld, at: u128, empty: bool, nearest: u128) -> bool
    ensures { Decides result (is_before (place (tail_of hub.now)) nearest at empty ≡ true → opening.now ≡ hub.now.opening) }
{
    !is_before(tail_place(hub), nearest, at, empty) || opening.same(hub.opening())
}

/// Whether a part at `place` may be the one before a part at `at`: `nearest` is the greatest place below `at`, and `empty` is whether
/// the part at `at` has no entries.
fn is_before(place: u128, nearest: u128, at: u128, empty: bool) -> bool
    ensures { result ≡ is_before place nearest at empty }
{
    (place < at || (empty && place == at)) && place >= nearest
}

/// The greatest place of a part below another place, 0 without one.
fn nearest_below(segments: &[Segment], hub: &Hub, at: u128) -> u128
    ensures { (n : ℕ) → list_any (λ (r : HistoryPart). nat_lt n (place r) && nat_lt (place r) at) (parts_of segments.now hub.now) ≡ nat_lt n result }
{
    let mut nearest = 0;
    for segment in segments {
        nearest = nearer(nearest, place(segment), at);
    }
    nearer(nearest, tail_place(hub), at)
}

/// The greater of two places if the second is below a third; else the first.
fn nearer(nearest: u128, place: u128, at: u128) -> u128
    ensures { (n : ℕ) → nat_lt n result ≡ (nat_lt n nearest || (nat_lt n place && nat_lt place at)) }
{
    if place < at {
        nearest.max(place)
    } else {
        nearest
    }
}
