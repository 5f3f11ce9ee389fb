//! Why a closing audit is refused, and the search for it.
ghost use Rattle.std.specs.Prelude.{◌≡◌, List, MatchResult};
ghost use Rattle.std.specs.Bool.{Decides};
ghost use Rattle.std.specs.Option.{option_copied};
ghost use Rattle.events.specs.declared.answer.Entry.{Entry};
ghost use Rattle.hub.specs.Segments.{tail_of};
ghost use Rattle.shared_hub.specs.Audits.{Stands, HasNone, IsFound, IsJoined, AreEntered, IsFault, IsLookUp, entry_after};

use crate::Receipt;
use base::Alike;
use hub::joins::joins;
use hub::{Answer, History, Hub, Segment};

/// Why a closing audit is refused.
#[derive(Clone, Copy, Debug, PartialEq, Eq)]
pub enum AuditFault {
    /// Not all seats were handed in.
    SeatMissing,
    /// The segments and the hub's tail are no whole history: this is the least number at which something is wrong.
    SegmentGap(u64),
    /// The first receipt that doesn't stand in the history, or came earlier in the list, has this number.
    ReceiptMismatch(u64),
    /// There is no memory for the counts.
    NoMemory,
}

/// Finds what is wrong with segments and receipts, if anything is.
pub(crate) fn judge(segments: &[Segment], hub: &Hub, receipts: &[Receipt]) -> Result<(), AuditFault>
    ensures { MatchResult result (λ _. AreEntered segments.now hub.now receipts.now) (λ fault. IsFault segments.now hub.now receipts.now fault) }
{
    if let Err(number) = joins(segments, hub) {
        return Err(AuditFault::SegmentGap(number));
    }
    match first_mismatch(segments, hub, receipts) {
        None => Ok(()),
        Some(number) => Err(AuditFault::ReceiptMismatch(number)),
    }
}

/// Finds the first receipt that doesn't stand in the history of segments and tail, or that came earlier in the list, and
/// returns its number; `None` if each stands there and no two have one number.
fn first_mismatch(segments: &[Segment], hub: &Hub, receipts: &[Receipt]) -> Option<u64>
    ensures { (history : List Entry) → IsJoined segments.now hub.now history → IsFound history receipts.now result }
{
    for (index, receipt) in receipts.iter().enumerate() {
        if !is_in_place(segments, hub, &receipts[..index], receipt) {
            return Some(receipt.number());
        }
    }
    None
}

/// Whether a receipt stands in the history, and none of those before it has its number.
fn is_in_place(segments: &[Segment], hub: &Hub, before: &[Receipt], receipt: &Receipt) -> bool
    ensures { (history : List Entry) → IsJoined segments.now hub.now history → Decides result (Stands history receipt.now × HasNone before.now receipt.now.entry.number) }
{
    is_entered(segments, hub, receipt) && is_first(before, receipt.number())
}

/// Whether the receipt's entry stands in the history at its number.
fn is_entered(segments: &[Segment], hub: &Hub, receipt: &Receipt) -> bool
    ensures { (history : List Entry) → IsJoined segments.now hub.now history → Decides result (Stands history receipt.now) }
{
    let entry = receipt.parts().0.get();
    match entry_at(segments, hub, entry.number) {
        None => false,
        Some(found) => found.get().is_like(entry),
    }
}

/// The entry with a number, in a segment or in the hub's tail.
fn entry_at<'a>(segments: &'a [Segment], hub: &'a Hub, number: u64) -> Option<&'a Answer>
    ensures { (history : List Entry) → IsJoined segments.now hub.now history → option_copied result ≡ entry_after 0 history number }
{
    for segment in segments {
        if let Some(entry) = segment_entry(segment, number) {
            return Some(entry);
        }
    }
    tail_entry(hub, number)
}

/// The entry with a number in a segment.
fn segment_entry(segment: &Segment, number: u64) -> Option<&Answer>
    ensures { IsLookUp segment.now number (option_copied result) }
{
    segment.prove_invariant();
    entry_after(segment.opening().number(), segment.entries(), number)
}

/// The entry with a number in the hub's tail.
fn tail_entry(hub: &Hub, number: u64) -> Option<&Answer>
    ensures { IsLookUp (tail_of hub.now) number (option_copied result) }
{
    hub.prove_invariant();
    entry_after(hub.opening().number(), hub.history(), number)
}

/// The entry with a number, among those that come after a number.
fn entry_after(before: u64, entries: &History, number: u64) -> Option<&Answer>
    ensures { option_copied result ≡ entry_after before entries.now.entries number }
{
    if before < number {
        entries.get((number - (before + 1)) as usize)
    } else {
        None
    }
}

/// Whether no receipt of the list has the number.
fn is_first(receipts: &[Receipt], number: u64) -> bool
    ensures { Decides result (HasNone receipts.now number) }
{
    for receipt in receipts {
        if receipt.number() == number {
            return false;
        }
    }
    true
}
