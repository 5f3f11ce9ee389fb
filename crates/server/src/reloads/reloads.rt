use crate::policy_source::Policies;
use crate::reloads::installs::Installs;
use crate::reloads::reading::{NextPolicy, next_policy, tell_refused, tell_warnings};
use events::{Answer, Command, Event, HubRefusal, Outcome};
use lines::reload_lines::write_reload;
use policy_ready::CompiledPolicy;
use server_log::{LogLevel, What};
use server_port::gates::{Gate, Point};
use server_port::{Access, ServerPort};
use server_state::mail::{OutgoingMail, ServerState};
use shared_hub::{Run, SharedHub};
use std::alloc::Global;
use std::sync::Wait;
use std::time::{Clock, Duration};
use worker_port::WorkerPort;
use worker_port::fault::ServeFault;

/// How many bytes of memory the entry of a reload is counted for each byte of the policy's text: it keeps users, lists and rows, and
/// what finds them. Of two policies 9 and 10 were measured; nothing bounds it for others.
const MADE_OF_TEXT: usize = 16;

/// The line of a reload for which memory lacks.
const NO_MEMORY: &[u8] = b"no memory\n";

/// After how long a line that found no room is offered again, in milliseconds.
const RETRY: u64 = 10;

/// A thread that installs policies: its port to the hub, and what it shares with others of its kind.
pub struct Reloads<'a, L: Run, R: Wait, G: Gate + Drop> {
    rt: &'a R,
    alloc: Global,
    state: &'a ServerState<'a>,
    port: ServerPort<'a, L, R, G>,
    installs: &'a Installs<'a>,
}

impl<L: Run, R: Wait, G: Gate + Drop> Drop for Reloads<'_, L, R, G> {
    fn drop(self) {
        let Self {
            rt: _,
            alloc: _,
            state: _,
            port: _,
            installs: _,
        } = self;
    }
}

impl<'a, L: Run, R: Wait + Clock, G: Gate + Drop> Reloads<'a, L, R, G> {
    /// Returns the reloads of a thread with such access to the hub. Without memory it returns `None`.
    pub fn new(
        rt: &'a R,
        alloc: Global,
        shared: &'a SharedHub<L>,
        state: &'a ServerState<'a>,
        access: Access<L, G>,
        installs: &'a Installs<'a>,
    ) -> Option<Reloads<'a, L, R, G>> {
        let outgoing = OutgoingMail::new(alloc, state.mailboxes.len(), None)?;
        Some(Reloads {
            rt,
            alloc,
            state,
            port: ServerPort::new(rt, alloc, shared, state, access, outgoing),
            installs,
        })
    }

    /// Installs the policies of an input until it ends or the server stops.
    pub fn run<P: Policies>(&mut self, policies: &mut P) -> Option<ServeFault> {
        for _ in self.rt.forever() {
            if self.state.stops() {
                return None;
            }
            match next_policy(self.alloc, policies, self.state.descriptors()) {
                NextPolicy::Later => {}
                NextPolicy::End => return None,
                NextPolicy::Bad => return Some(ServeFault::BadFrame),
                NextPolicy::NoMemory => self.say(NO_MEMORY),
                NextPolicy::Refused(line, notes) => {
                    tell_refused(self.rt, self.state.log, line.as_slice(), &notes);
                    self.say(line.as_slice());
                }
                NextPolicy::Ready(ready, notes, bytes) => {
                    tell_warnings(self.rt, self.state.log, &notes);
                    self.install(ready, bytes);
                    if self.port.is_spent() {
                        return Some(ServeFault::GateClosed);
                    }
                }
            }
        }
        None
    }

    /// Installs a policy, whose text has so many bytes, counts what its entry keeps, and drops the old entries of the history.
    fn install(&mut self, ready: CompiledPolicy, bytes: usize) {
        self.port.pass(Point::Prepared);
        self.submit(ready);
        self.port.keep(bytes.saturating_mul(MADE_OF_TEXT));
        let _ = self.port.shed(usize::MAX);
    }

    /// Enters a reload, and prints what came of it. Meanwhile no other policy comes into force, so that the lines stand in the
    /// order of the epochs.
    fn submit(&mut self, ready: CompiledPolicy) {
        let installs = self.installs;
        let mut epoch = installs.epoch.lock(self.rt);
        let next = epoch.saturating_add(1);
        self.state.log.note_policy(self.rt, next, &ready);
        let now = self.state.now(self.rt);
        let event = Event {
            now,
            what: Command::Reload(ready),
        };
        match self.port.enter(event) {
            Ok(answer) => {
                *epoch = next;
                self.tell(&answer);
            }
            Err((_, refusal)) => {
                self.state.log.forget_policy(self.rt);
                self.say(match refusal {
                    HubRefusal::HistoryFull => b"history full\n".as_slice(),
                    _ => NO_MEMORY,
                });
            }
        }
    }

    /// Tells the server's operator what a reload has done, and leaves it for the workers, which tell what it has removed.
    fn tell_reload(&self, answer: &Answer) {
        let entry = answer.get();
        let Outcome::Reloaded { gone, removed } = &entry.outcome else {
            return;
        };
        self.state.log.tell(
            self.rt,
            What::Reloaded {
                epoch: u64::try_from(entry.epoch).unwrap_or(u64::MAX),
                gone: gone.as_slice().len() as u64,
                removed: removed.as_slice().len() as u64,
            },
        );
        let is_told = self.state.log.level() != LogLevel::None || self.state.limits.tells_removed;
        if is_told && !removed.as_slice().is_empty() {
            self.leave_reload(answer);
        }
    }

    /// Leaves the answer of a reload in all mailboxes.
    fn leave_reload(&self, answer: &Answer) {
        for mailbox in self.state.mailboxes {
            if let Ok(again) = answer.again() {
                mailbox.leave_reload(self.rt, again);
            }
        }
    }

    /// Leaves mail about the sessions that a reload has ended, and then prints its lines.
    fn tell(&mut self, answer: &Answer) {
        self.port
            .outgoing()
            .leave_others(self.rt, self.state.mailboxes);
        self.tell_reload(answer);
        let mut lines = Vec::new(self.alloc);
        match write_reload(&mut lines, answer.get()) {
            Ok(()) => self.say(lines.as_slice()),
            Err(_) => self.say(NO_MEMORY),
        }
    }

    /// Prints lines, once there is room for them. Where the server stops first they are lost.
    fn say(&self, lines: &[u8]) {
        for _ in self.rt.forever() {
            if self.installs.prints.add(self.rt, lines) || self.state.stops() {
                return;
            }
            self.rt.sleep(Duration::from_millis(RETRY));
        }
    }
}
