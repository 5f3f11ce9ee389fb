//! How many bytes wait for a connection.
ghost use Rattle.std.specs.Prelude.{◌≡◌, ◌≤◌, nat_lt, IfOk};
ghost use Rattle.std.specs.List.{sum_by};
ghost use Rattle.std.specs.Option.{option_copied};
ghost use Rattle.world_sessions.specs.leniency.Held.{bytes_of, weight_of, is_over};

use crate::Session;
use base::NoMemory;
use events::{Deliveries, DeliveryRef, Message};

/// Returns how many bytes a message has, beside its subjects.
#[inline(always)]
pub fn bytes_of(message: &Message) -> usize
    ensures { result ≡ bytes_of message.now }
{
    message.head().len() + message.payload().len()
}

/// Returns how many bytes a delivery has, beside its subjects.
fn weight_of(delivery: &DeliveryRef<'_>) -> usize
    ensures { result ≡ weight_of delivery.now }
{
    delivery.head.len() + delivery.payload.len()
}

/// Returns whether deliveries have more bytes than so many.
fn weigh_more(waiting: Deliveries<'_>, room: usize) -> bool
    ensures { result ≡ nat_lt room (sum_by weight_of waiting.entry) }
{
    let mut next = waiting;
    let mut left = room;
    while let Some(delivery) = next.next() {
        let bytes = weight_of(&delivery);
        if left < bytes {
            return true;
        }
        left -= bytes;
    }
    false
}

/// Returns whether more bytes wait in a session's outbox than may. `NoMemory` where memory could not be had to look.
pub(crate) fn is_over(room: Option<usize>, session: Option<&Session>) -> Result<bool, NoMemory>
    ensures { IfOk result (λ over. over ≡ is_over room (option_copied session.entry)) }
{
    let (Some(room), Some(session)) = (room, session) else {
        return Ok(false);
    };
    let waiting = session.outbox.front(session.outbox.len())?;
    Ok(weigh_more(Deliveries::of(&waiting), room))
}
