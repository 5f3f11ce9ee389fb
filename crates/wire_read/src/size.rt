ghost use Rattle.std.specs.Prelude.{◌≡◌};
ghost use Rattle.wire_read.specs.Size.{size, sizes, count};

use crate::WireFault;
use base::number_of;

/// The most bytes of a payload, its header block among them.
pub const MAX_PAYLOAD: u64 = 1_048_576;

/// The most messages that a client may count.
pub const MAX_COUNT: u64 = 9_223_372_036_854_775_807;

/// The size that a field writes.
#[tactic(auto, unfolding(crate::specs::Size::size))]
pub fn size_of(field: &[u8]) -> Result<usize, WireFault>
    ensures { result ≡ size field.now }
{
    match number_of(field) {
        None => Err(WireFault::ParserError),
        Some(number) => {
            if number > MAX_PAYLOAD {
                Err(WireFault::Payload)
            } else {
                Ok(number as usize)
            }
        }
    }
}

/// The sizes that two fields write: of a header block, and of all that follows the line.
#[tactic(auto, unfolding(crate::specs::Size::sizes))]
pub fn sizes_of(head: &[u8], total: &[u8]) -> Result<(usize, usize), WireFault>
    ensures { result ≡ sizes head.now total.now }
{
    match number_of(head) {
        None => Err(WireFault::ParserError),
        Some(head) => match size_of(total) {
            Err(fault) => Err(fault),
            Ok(total) => {
                let most = total as u64;
                if head > most {
                    Err(WireFault::ParserError)
                } else {
                    Ok((head as usize, total))
                }
            }
        },
    }
}

/// The count of messages that a field writes.
#[tactic(auto, unfolding(crate::specs::Size::count))]
pub fn count_of(field: &[u8]) -> Option<u64>
    ensures { result ≡ count field.now }
{
    match number_of(field) {
        None => None,
        Some(number) => {
            if number > MAX_COUNT {
                None
            } else {
                Some(number)
            }
        }
    }
}
