ghost use Rattle.std.specs.Prelude.{◌≡◌, Bool, None, Option, false, max, nat_eq, ℕ};
ghost use Rattle.worker_port.specs.declared.course.Course.{Course};

use crate::course::Why;
use events::Port;
use server_log::{GrantEnds, Noted};
use server_state::mail::OutgoingMail;
use server_stats::HubLooks;

/// A worker's port to the hub: where its connections' events go, what the log and the numbers ask of it, and what the worker asks
/// of it between their turns. A worker is proved over this alone, whatever hub is on its other side (docs/ARCHITECTURE.md).
pub trait WorkerPort: Port + GrantEnds + HubLooks {
    /// How far the round and the turn have come.
    ghost course: { Self → Course };

    /// Whether the gate has let something pass no more.
    ghost spent: { Self → Bool };

    /// For how many milliseconds the socket took nothing whose connection's Take comes next.
    ghost stall_ms: { Self → ℕ };

    /// How many deliveries wait for a connection after the latest Take, where that was told and not asked since.
    ghost rest: { Self → Option ℕ };

    /// Returns whether the gate has let something pass no more.
    fn is_spent(&self) -> bool
        ensures spent { result ≡ spent self.now };

    /// Returns what is to be left in the workers' mailboxes.
    fn outgoing(&mut self) -> &mut OutgoingMail;

    /// Returns what is to be told of the latest events.
    fn noted(&mut self) -> &mut Noted;

    /// Begins a round, or goes on with it: at least so many deliveries may enter in it.
    fn allow(&mut self, deliveries: usize)
        ensures course { course self.new ≡ record (course self.old) { share = max (course self.old).share deliveries } };

    /// Returns whether nothing is left of the round's share.
    fn has_no_share(&self) -> bool
        ensures share { result ≡ nat_eq (course self.now).share 0 };

    /// Begins a connection's turn. `has_passed` is whether it has had what waited for it, so that it needn't wait again.
    fn begin_turn(&mut self, has_passed: bool)
        ensures course { course self.new ≡ record { share = (course self.old).share; why = None; has_passed = has_passed; has_entered = false } };

    /// Returns whether an event has been entered in this turn.
    fn has_entered(&self) -> bool
        ensures entered { result ≡ (course self.now).has_entered };

    /// Returns why the latest message of the turn was held back, if one was.
    fn why(&self) -> Option<Why>
        ensures why { result ≡ (course self.now).why };

    /// Counts bytes that entries keep beside their own, and rotates the history where they are too many.
    fn keep(&mut self, bytes: usize)
        ensures course { course self.new ≡ course self.old };

    /// Returns how many deliveries wait for a connection, as the hub has it.
    fn waiting(&self, conn: u64) -> usize;

    /// Says that a Take comes next, of a connection whose socket took nothing for so many milliseconds since its last one.
    fn begin_take(&mut self, millis: u64)
        ensures stall { stall_ms self.new ≡ millis }
        ensures none { rest self.new ≡ None }
        ensures course { course self.new ≡ course self.old };

    /// Returns how many of these milliseconds no event has told the hub.
    fn untold(&mut self) -> u64
        ensures stall { result ≡ stall_ms self.old }
        ensures none { stall_ms self.new ≡ 0 }
        ensures course { course self.new ≡ course self.old };

    /// Returns how many deliveries wait for a connection after the latest Take, where that wasn't asked since.
    fn take_rest(&mut self) -> Option<usize>
        ensures rest { result ≡ rest self.old }
        ensures none { rest self.new ≡ None }
        ensures course { course self.new ≡ course self.old };

    /// Drops so many of the entries that were handed out, or all, and returns whether some are left. Who rests does so, since
    /// without events none would go.
    fn shed(&mut self, most: usize) -> bool
        ensures course { course self.new ≡ course self.old };
}
