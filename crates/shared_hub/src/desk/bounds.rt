//! How much may wait for a connection.
ghost use Rattle.std.specs.Prelude.{◌≡◌};
ghost use Rattle.shared_hub.specs.desk.Bounds as bounds;

use hub::Command;
use world_sessions::leniency::bytes_of;

/// How many bytes of messages may wait for a connection once a large message has entered.
const MOST_BYTES: usize = 67_108_864;

/// How many bytes a message has, beside its subjects; 0 if the command is no message.
#[inline(always)]
pub fn size_of(what: &Command) -> usize
    ensures { result ≡ bounds.size_of what.now }
{
    match what {
        Command::Pub { message, .. } => bytes_of(message),
        _ => 0,
    }
}

/// Up to this size no message is large, whatever an outbox holds.
const SMALL: usize = 1024;

/// How many deliveries an outbox holds at most.
const MOST_DELIVERIES: usize = 65_536;

/// How many bytes may wait before a message of this size enters, if it is large: if as many of its size as an outbox holds
/// have more bytes than may wait.
#[inline(always)]
pub(crate) fn room_beside(capacity: usize, size: usize) -> Option<usize>
    ensures { result ≡ bounds.room_beside capacity size }
{
    if size <= SMALL && capacity <= MOST_DELIVERIES {
        None
    } else {
        room_by_product(capacity, size)
    }
}

/// Computes `room_beside` by the product of both. It stands apart, since most messages are small.
#[inline(never)]
fn room_by_product(capacity: usize, size: usize) -> Option<usize>
    ensures { result ≡ bounds.room_beside capacity size }
{
    match size.checked_mul(capacity) {
        Some(all) if all <= MOST_BYTES => None,
        _ => Some(MOST_BYTES.saturating_sub(size)),
    }
}
