// The server of a script: its hub, the moment of its events and the words that they take (docs/SCRIPT.md, "Lines").
ghost use Rattle.std.specs.Prelude.{◌≡◌, ◌≤◌, ◌++◌, ◌∷◌, [], false, IfOk, OnOk};
ghost use Rattle.world.specs.Shown.{waiting_of};
ghost use Rattle.session_plan.specs.Replies.{is_closed};
ghost use Rattle.script.specs.Server.{opened, opening, with_policy, with_caps, installed, IsNextWord};
ghost use Rattle.script.specs.Session.{bytes_call, drain_call, end_call, is_memory_stall, IsCall};

use crate::sessions::{Conn, Direct, Output, Stall, Words};
use base::NoMemory;
use hub::{Answer, Caps, Command, CompiledPolicy, Event, Hub, HubRefusal};
use policy_doc::Policy;
use std::alloc::Global;
use std::collections::VecDeque;
use std::hash::RandomState;
use std::marker::Model;

/// The words of a script, first to last. Where none is left the word is 0.
#[derive(Drop)]
struct ScriptWords {
    left: VecDeque<u64>,
}

impl Model for ScriptWords {
    ghost use Rattle.std.specs.Prelude.{ℕ, List};

    ghost Value = { List ℕ };

    ghost view = { λ w. w.left.items };
}

impl Words for ScriptWords {
    ghost draws = { λ old word new. IsNextWord old word new };

    fn next(&mut self) -> u64 {
        match self.left.pop_front() {
            Some(word) => word,
            None => 0,
        }
    }
}

/// What a hub is given where a script doesn't say.
const USUAL: Caps = Caps {
    outbox: 1024,
    history: 100_000,
};

/// A hub, the moment of its events, and the words that messages take, first to last. A clause sees these, and what
/// the hub was given at its opening.
pub struct Server {
    keys: RandomState,
    hub: Hub,
    caps: Caps,
    moment: u64,
    words: ScriptWords,
}

impl Drop for Server {
    fn drop(self) {
        let Self {
            keys: _,
            hub: _,
            caps: _,
            moment: _,
            words: _,
        } = self;
    }
}

impl Model for Server {
    ghost use Rattle.std.specs.Prelude.{◌≤◌};
    ghost use Rattle.script.specs.Server.{Serving};

    ghost Value = { Serving };

    ghost view = { λ s. record { hub = s.hub; caps = s.caps; moment = s.moment; words = s.words } };

    ghost invariant = { λ s. (1 ≤ s.caps.outbox) × (s.caps.outbox ≤ 65536) };
}

impl Server {
    /// A server over a policy, with nobody connected. The moment is 0, and there are no words. The tables of its hubs
    /// are hashed under the keys.
    pub fn new(alloc: Global, keys: RandomState, policy: Policy) -> Result<Server, NoMemory>
        ensures { IfOk result (λ server. server ≡ opening policy) }
    {
        Ok(Server {
            keys,
            hub: open_hub(alloc, keys, policy, USUAL)?,
            caps: USUAL,
            moment: 0,
            words: ScriptWords {
                left: VecDeque::new(alloc),
            },
        })
    }

    /// Puts a policy in the place of the present one, over a hub with nobody connected.
    pub fn set_policy(&mut self, alloc: Global, policy: Policy) -> Result<(), NoMemory>
        ensures { OnOk result (self.new ≡ with_policy policy self.old) }
    {
        self.hub = open_hub(alloc, self.keys, policy, self.caps)?;
        Ok(())
    }

    /// The built-in policy over a hub with nobody connected, which is given these caps.
    pub fn set_caps(&mut self, alloc: Global, caps: Caps) -> Result<(), NoMemory>
        requires low { 1 ≤ caps.outbox }
        requires high { caps.outbox ≤ 65536 }
        ensures { OnOk result (self.new ≡ with_caps caps self.old) }
    {
        let policy = Policy::builtin(alloc)?;
        self.hub = open_hub(alloc, self.keys, policy, caps)?;
        self.caps = caps;
        Ok(())
    }

    /// The moment of every later event.
    pub fn set_moment(&mut self, moment: u64)
        ensures { self.new ≡ record self.old { moment = moment } }
    {
        self.moment = moment;
    }

    /// A word behind those that are left.
    pub fn add_word(&mut self, word: u64) -> Result<(), NoMemory>
        ensures { OnOk result (self.new ≡ record self.old { words = self.old.words ++ word ∷ [] }) }
    {
        self.words.left.push_back(word)?;
        Ok(())
    }

    /// A client's bytes to its connection.
    pub fn on_bytes(
        &mut self,
        alloc: Global,
        conn: &mut Conn,
        bytes: &[u8],
    ) -> Result<Output, NoMemory>
        ensures call { IfOk result (λ output. IsCall (bytes_call self.old conn.old bytes.now) output conn.new self.new) }
        ensures close { IfOk result (λ output. output.close ≡ is_closed conn.new.stage) }
    {
        let mut port = Direct::new(&mut self.hub);
        let output = conn.on_bytes(alloc, &mut port, bytes, self.moment, &mut self.words);
        let output = with_memory(output)?;
        Ok(output)
    }

    /// A Take of at most so many deliveries for a connection.
    pub fn drain(&mut self, alloc: Global, conn: &mut Conn, most: usize) -> Result<Output, NoMemory>
        ensures call { IfOk result (λ output. IsCall (drain_call self.old conn.old most) output conn.new self.new) }
        ensures close { IfOk result (λ output. output.close ≡ is_closed conn.new.stage) }
    {
        let mut port = Direct::new(&mut self.hub);
        let output = conn.drain(alloc, &mut port, most, self.moment);
        let output = with_memory(output)?;
        Ok(output)
    }

    /// The end of a connection: its session goes.
    pub fn end(&mut self, conn: &mut Conn) -> Result<Output, NoMemory>
        ensures { IfOk result (λ output. IsCall (end_call self.old conn.old) output conn.new self.new) }
    {
        let mut port = Direct::new(&mut self.hub);
        let output = conn.ended(&mut port, self.moment);
        let output = with_memory(output)?;
        Ok(output)
    }

    /// A policy comes into force, by one event at the present moment. Returns the event's entry, and nothing where the
    /// history is full.
    #[tactic(auto, unfolding(crate::specs::Server::installed))]
    pub fn install(&mut self, policy: CompiledPolicy) -> Result<Option<Answer>, NoMemory>
        ensures { IfOk result (λ answer. (answer, self.new) ≡ installed policy self.old) }
    {
        let event = Event {
            now: self.moment,
            what: Command::Reload(policy),
        };
        match self.hub.step(event) {
            Ok(answer) => Ok(Some(answer)),
            Err((_, HubRefusal::HistoryFull)) => Ok(None),
            Err((_, _)) => Err(NoMemory),
        }
    }

    /// How many deliveries wait for the connection's session, and whether one was missed; `None` where it has none.
    pub fn waiting(&self, conn: u64) -> Option<(usize, bool)>
        ensures { result ≡ waiting_of self.now.hub.world conn }
    {
        self.hub.waiting(conn)
    }
}

/// A hub over a policy, with nobody connected.
fn open_hub(alloc: Global, keys: RandomState, policy: Policy, caps: Caps) -> Result<Hub, NoMemory>
    requires low { 1 ≤ caps.outbox }
    requires high { caps.outbox ≤ 65536 }
    ensures { IfOk result (λ hub. hub ≡ opened caps policy) }
{
    match CompiledPolicy::of(alloc, policy) {
        Ok(ready) => match Hub::new(alloc, ready, caps, keys) {
            Ok(hub) => Ok(hub),
            Err((_, refused)) => Err(refused),
        },
        Err((_, refused)) => Err(refused),
    }
}

/// A call that did not lack memory.
fn with_memory(output: Output) -> Result<Output, NoMemory>
    ensures { IfOk result (λ same. (same ≡ output) × (is_memory_stall same.stall ≡ false)) }
{
    if matches!(output.stall, Some(Stall::PieceNotTaken | Stall::Memory)) {
        Err(NoMemory)
    } else {
        Ok(output)
    }
}
