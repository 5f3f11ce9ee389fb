ghost use Rattle.std.specs.Prelude.{◌≡◌};

use base::{Copying, Shared as Handle};
use events::{Command, Entry, Event, Outcome};
use policy_ready::CompiledPolicy;
use shared_hub::{Audit, AuditFault, Caps, Hub, Parts, Receipt, Run, Seat, Segment};
use std::alloc::Global;
use std::hash::RandomState;
use test_samples::{Given, connect, ready_of, sub};

/// What an audit of all parts tells.
#[derive(Drop)]
pub struct Totals {
    /// How many entries the history has.
    entries: usize,
    /// How many each seat has made.
    counts: Vec<u64>,
    /// The number of the last receipt that was handed in.
    last: u64,
}

impl Totals {
    pub fn are(&self, entries: usize, counts: &[u64]) -> bool {
        self.entries == entries && self.counts.as_slice() == counts
    }

    /// Whether the last receipt is that of the last entry, and the seats have made all entries.
    pub fn end_with_last_receipt(&self) -> bool {
        let mut made = 0u64;
        for count in self.counts.as_slice() {
            made = made.saturating_add(*count);
        }
        made == self.entries as u64 && self.last == made
    }
}

/// Whether audits are refused for receipts that are forged of the second, which is that of a Subscribed, and handed in behind
/// all others: a copy beside it, one with the number of another entry, beside that entry's receipt and in its place, one with this
/// number, which no entry has. What is missing counts first: a seat, and then a segment.
pub fn refuses_forged<L: Run>(alloc: Global, slot: &mut Option<Parts<L>>, number: u64) -> bool
    requires { L.seats ≡ L.parts }
{
    let (other, own) = (number_of(slot, 0), number_of(slot, 1));
    refuses_remade(alloc, slot, own)
        && refuses_remade(alloc, slot, other)
        && refuses_in_place_of_last(alloc, slot)
        && refuses_remade(alloc, slot, number)
        && refuses_incomplete(alloc, slot, number)
}

/// Whether an audit is refused for the second receipt remade with the number of the last, which isn't handed in.
fn refuses_in_place_of_last<L: Run>(alloc: Global, slot: &mut Option<Parts<L>>) -> bool
    requires { L.seats ≡ L.parts }
{
    match take_receipt(slot) {
        None => false,
        Some(last) => {
            let refused = refuses_remade(alloc, slot, last.number());
            put_receipt(slot, last) && refused
        }
    }
}

/// Whether an audit with a forged receipt is refused for the last segment, while that lacks, and for a seat, while both lack.
fn refuses_incomplete<L: Run>(alloc: Global, slot: &mut Option<Parts<L>>, number: u64) -> bool
    requires { L.seats ≡ L.parts }
{
    let made = add_remade(alloc, slot, number);
    let withheld = take_segment(slot);
    let gap = first_of(&withheld);
    let missed = misses_a_seat(alloc, slot);
    let refused = is_refused(alloc, slot, AuditFault::SegmentGap(gap));
    let put = put_segment(slot, withheld);
    drop(take_receipt(slot));
    made && missed && refused && put
}

/// Whether an audit is refused that lacks the last seat.
fn misses_a_seat<L: Run>(alloc: Global, slot: &mut Option<Parts<L>>) -> bool
    requires { L.seats ≡ L.parts }
{
    let withheld = take_seat(slot);
    let refused = is_refused(alloc, slot, AuditFault::SeatMissing);
    put_seat(slot, withheld) && refused
}

/// Whether an audit that lacks the last segment is refused for a gap at this number.
pub fn has_a_gap<L: Run>(alloc: Global, slot: &mut Option<Parts<L>>, number: u64) -> bool
    requires { L.seats ≡ L.parts }
{
    let withheld = take_segment(slot);
    let refused = is_refused(alloc, slot, AuditFault::SegmentGap(number));
    put_segment(slot, withheld) && refused
}

/// Whether an audit is refused for a gap at this number that has a segment of another run in place of the last.
pub fn refuses_foreign<L: Run>(
    alloc: Global,
    slot: &mut Option<Parts<L>>,
    keys: RandomState,
    number: u64,
) -> bool
    requires { L.seats ≡ L.parts }
{
    let withheld = take_segment(slot);
    let put = put_segment(slot, foreign_segment(alloc, keys));
    let refused = is_refused(alloc, slot, AuditFault::SegmentGap(number));
    drop(take_segment(slot));
    put_segment(slot, withheld) && put && refused
}

/// The first two entries of a hub whose policy allows a subscription alone.
fn foreign_segment(alloc: Global, keys: RandomState) -> Option<Segment> {
    let caps = Caps {
        outbox: 16,
        history: 10,
    };
    let mut hub = Hub::new(alloc, ready_of(alloc, Given::Only("a"))?, caps, keys).ok()?;
    enter(&mut hub, connect(alloc, 0)?)?;
    enter(&mut hub, sub(alloc, 0, "a", 0)?)?;
    hub.rotate().ok()
}

fn enter(hub: &mut Hub, what: Command) -> Option<()> {
    match hub.step(Event { now: 0, what }) {
        Ok(_) => Some(()),
        Err(_) => None,
    }
}

/// Whether an audit is refused for the second receipt remade with this number.
fn refuses_remade<L: Run>(alloc: Global, slot: &mut Option<Parts<L>>, number: u64) -> bool
    requires { L.seats ≡ L.parts }
{
    let made = add_remade(alloc, slot, number);
    let refused = is_refused(alloc, slot, AuditFault::ReceiptMismatch(number));
    drop(take_receipt(slot));
    made && refused
}

/// Audits all parts, and returns what that tells, unless it is refused.
pub fn audited<L: Run>(alloc: Global, slot: &mut Option<Parts<L>>) -> Option<Totals>
    requires { L.seats ≡ L.parts }
{
    match slot.take() {
        None => None,
        Some(parts) => {
            let last = last_number(parts.receipts.as_slice());
            match finish(alloc, parts) {
                Ok(audit) => Some(totals_of(audit, last)),
                Err(_) => None,
            }
        }
    }
}

/// Whether an audit is refused with this fault. Puts what was handed in back.
fn is_refused<L: Run>(alloc: Global, slot: &mut Option<Parts<L>>, fault: AuditFault) -> bool
    requires { L.seats ≡ L.parts }
{
    match slot.take() {
        None => false,
        Some(parts) => match finish(alloc, parts) {
            Ok(_) => false,
            Err((found, parts)) => {
                put_back(slot, parts);
                found == fault
            }
        },
    }
}

fn put_back<L: Run>(slot: &mut Option<Parts<L>>, parts: Parts<L>) {
    *slot = Some(parts);
}

/// An audit without its clauses: what a test asserts, it computes.
fn finish<L: Run>(alloc: Global, parts: Parts<L>) -> Result<Audit<L>, (AuditFault, Parts<L>)>
    requires { L.seats ≡ L.parts }
{
    let Parts {
        run,
        seats,
        receipts,
        segments,
    } = parts;
    run.finish(alloc, seats, receipts, segments)
}

fn last_number(receipts: &[Receipt]) -> u64 {
    match receipts.last() {
        None => 0,
        Some(receipt) => receipt.number(),
    }
}

/// The number of the receipt at this place, 0 if there is none.
fn number_of<L: Run>(slot: &Option<Parts<L>>, place: usize) -> u64 {
    match slot {
        None => 0,
        Some(parts) => match parts.receipts.get(place) {
            None => 0,
            Some(receipt) => receipt.number(),
        },
    }
}

/// The number of a segment's first entry, 0 if there is none.
fn first_of(segment: &Option<Segment>) -> u64 {
    match segment {
        None => 0,
        Some(segment) => segment.first_number(),
    }
}

fn totals_of<L: Run>(audit: Audit<L>, last: u64) -> Totals {
    let entries = entries_of(&audit.hub, audit.segments.as_slice());
    Totals {
        entries,
        counts: audit.counts.into_vec(),
        last,
    }
}

fn entries_of(hub: &Hub, segments: &[Segment]) -> usize {
    let mut entries = hub.history().len();
    for segment in segments {
        entries = entries.saturating_add(segment.entries().len());
    }
    entries
}

fn take_seat<L: Run>(slot: &mut Option<Parts<L>>) -> Option<Seat<L>> {
    match slot {
        None => None,
        Some(parts) => parts.seats.pop(),
    }
}

fn put_seat<L: Run>(slot: &mut Option<Parts<L>>, seat: Option<Seat<L>>) -> bool {
    match seat {
        None => false,
        Some(seat) => match slot {
            None => false,
            Some(parts) => parts.seats.push(seat).is_ok(),
        },
    }
}

fn take_segment<L: Run>(slot: &mut Option<Parts<L>>) -> Option<Segment> {
    match slot {
        None => None,
        Some(parts) => parts.segments.pop(),
    }
}

fn put_segment<L: Run>(slot: &mut Option<Parts<L>>, segment: Option<Segment>) -> bool {
    match segment {
        None => false,
        Some(segment) => match slot {
            None => false,
            Some(parts) => parts.segments.push(segment).is_ok(),
        },
    }
}

fn add_remade<L: Run>(alloc: Global, slot: &mut Option<Parts<L>>, number: u64) -> bool {
    match slot {
        None => false,
        Some(parts) => push_remade(alloc, &mut parts.receipts, number),
    }
}

fn take_receipt<L: Run>(slot: &mut Option<Parts<L>>) -> Option<Receipt> {
    match slot {
        None => None,
        Some(parts) => parts.receipts.pop(),
    }
}

fn put_receipt<L: Run>(slot: &mut Option<Parts<L>>, receipt: Receipt) -> bool {
    match slot {
        None => false,
        Some(parts) => parts.receipts.push(receipt).is_ok(),
    }
}

fn push_remade(alloc: Global, receipts: &mut Vec<Receipt>, number: u64) -> bool {
    match remade(alloc, receipts.get(1), number) {
        None => false,
        Some(forged) => receipts.push(forged).is_ok(),
    }
}

/// The receipt of a Subscribed made again of its parts, with another number.
fn remade(alloc: Global, receipt: Option<&Receipt>, number: u64) -> Option<Receipt> {
    let (answer, command, ready) = receipt?.parts();
    let epoch = answer.get().epoch;
    let ready = ready.copy(alloc).ok()?;
    let what = command.copy(alloc).ok()?;
    receipt_of(alloc, subscribed(number, epoch, what), ready)
}

fn subscribed(number: u64, epoch: u128, what: Command) -> Entry {
    Entry {
        number,
        epoch,
        outcome: Outcome::Subscribed,
        event: Event { now: 0, what },
    }
}

/// The receipt of an entry under a policy, if there is one.
pub fn receipt_of(alloc: Global, entry: Entry, ready: CompiledPolicy) -> Option<Receipt> {
    match Handle::new(alloc, entry) {
        Ok(answer) => Receipt::from_parts(answer, ready),
        Err(_) => None,
    }
}
