ghost use Rattle.std.specs.Prelude.{◌≡◌};
ghost use Rattle.std.specs.Io.Iter.{u64_saturate};
ghost use Rattle.server_state.specs.history.Bytes.{own};

use events::{Answer, Outcome};

/// How many bytes the entry of a command keeps of its own, about, beside what the next ones count.
const ENTRY: u64 = 250;

/// How many for each item of a message.
const ITEM: u64 = 24;

/// How many for each delivery that a Take gave.
const DELIVERY: u64 = 48;

/// How many for each session that a reload ended.
const GONE: u64 = 8;

/// How many for each subscription that a reload removed.
const REMOVED: u64 = 128;

/// Returns how many bytes the entry of an answer keeps of its own, about. Whoever enters it counts the texts that were read, and the
/// policy of a reload.
#[inline(always)]
pub(crate) fn own_of(answer: &Answer) -> u64
    ensures { result ≡ u64_saturate (own answer.now) }
{
    let more = match &answer.get().outcome {
        Outcome::Published(_, met) => ITEM.saturating_mul(met.as_slice().len() as u64),
        Outcome::Taken(all, _) => DELIVERY.saturating_mul(all.len() as u64),
        Outcome::Reloaded { gone, removed } => {
            let ended = GONE.saturating_mul(gone.len() as u64);
            ended.saturating_add(REMOVED.saturating_mul(removed.len() as u64))
        }
        _ => 0,
    };
    more.saturating_add(ENTRY)
}
