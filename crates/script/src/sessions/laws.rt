ghost use Rattle.session_conn.specs.Turns.{port_of};
ghost use Rattle.script.specs.sessions.Accounts.{AccountsForCalls, AccountsOver};

use crate::sessions::direct::Direct;
use events::Port;
use session_conn::Words;
use wire_read::cut_anywhere;

/// Any calls of one connection, in any order, each over a port of its own to one hub, with whatever others do to the
/// hub between them, and with stalls anywhere. There is one list of what happened, and it accounts for all of them:
/// what each call writes is the session protocol's of the frames, answers and deliveries in it; the hub goes by the
/// events in it, each submitted once and in order; a message has one word, however often it stalls; each frame of
/// the bytes that were taken has one turn, unless the connection closed before; each delivery that was taken is
/// written once, or owed; and after a closing text nothing is written but INFO, where the caller asks for it again.
pub fn any_calls<P: Port, W: Words>()
    ensures { AccountsForCalls (port_of P.steps P.posts P.holds) W.draws }
{
    cut_anywhere();
}

/// The same over a hub that is this thread's alone.
pub fn any_calls_direct<W: Words>()
    ensures { AccountsOver (port_of ⟦<Direct<'static> as Port>⟧.steps ⟦<Direct<'static> as Port>⟧.posts ⟦<Direct<'static> as Port>⟧.holds) W.draws (λ port. port.hub.now) }
{
    any_calls::<Direct, W>();
}
