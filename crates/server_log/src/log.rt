use crate::grants::GrantEnds;
use crate::level::LogLevel;
use crate::noted::{InvalidTexts, Noted};
use crate::party::Party;
use crate::prints::Prints;
use base::{Copying, SharedText};
use bytes::Bytes;
use events::{Command, Entry, Item, Message, Outcome, Removed};
use log_lines::{
    Denial, Ending, GrantEnd, Invalid, Notice, Program, Rate, Slowness, Unrouted, What, line_of,
    what_of,
};
use permissions::Verdict;
use policy_doc::permission_doc::PermEntry;
use policy_ready::{CompiledPolicy, User};
use std::alloc::Global;
use std::io;
use std::sync::{Mutex, Wait};
use std::time::Clock;
use subjects::{Pattern, Subject};

/// How many lines a second a connection may have.
const MOST_OF_ONE: u64 = 10;

/// How many all may have.
const MOST_OF_ALL: u64 = 1000;

/// How many policies are kept, so that the entry of an answer is found that another policy follows.
const KEPT: usize = 4;

/// What no client has said of its program.
const NOT_SAID: Program<'static> = Program {
    name: None,
    lang: None,
    version: None,
};

/// A policy, and the epoch that has it.
#[derive(Drop)]
struct InForce {
    epoch: u128,
    ready: CompiledPolicy,
}

/// When a line is told, and how many were left out before it.
#[derive(Clone, Copy)]
struct Admitted {
    at: u64,
    left_out: u64,
}

/// What a server tells its operator, by any of its threads. The lines wait for a thread that writes them; where too much
/// waits they are left out.
#[derive(Drop)]
pub struct ServerLog<'a> {
    alloc: Global,
    level: LogLevel,
    prints: &'a Prints,
    total: Mutex<Rate>,
    policies: Mutex<Vec<InForce>>,
}

/// Returns the user of this name, if the policy has one.
pub(crate) fn user_named<'x>(
    policy: &'x Option<CompiledPolicy>,
    name: Option<&[u8]>,
) -> Option<&'x User> {
    let (Some(policy), Some(name)) = (policy, name) else {
        return None;
    };
    policy
        .users()
        .iter()
        .find(|user| user.user.as_slice() == name)
}

/// Returns the entry of a user's lists that a verdict names, if it names one.
fn entry_of<'x>(
    user: Option<&'x User>,
    publishes: bool,
    verdict: Verdict,
) -> Option<&'x PermEntry> {
    let permissions = user?.rules.permissions()?;
    let rules = if publishes {
        &permissions.publish
    } else {
        &permissions.subscribe
    };
    match verdict {
        Verdict::DeniedBy(index) => rules.deny.as_slice().get(index),
        Verdict::NoQueueAllow(index) => match &rules.allow {
            None => None,
            Some(entries) => entries.as_slice().get(index),
        },
        Verdict::Allowed(_) => None,
        Verdict::NoAllow => None,
    }
}

/// Returns an entry's text. Without memory there is none.
fn text_of(alloc: Global, entry: Option<&PermEntry>) -> Option<Vec<u8>> {
    let mut text = Vec::new(alloc);
    entry?.write_to(&mut text).ok()?;
    Some(text)
}

/// Returns the bytes of a text, if there is one.
fn bytes_of(text: &Option<Vec<u8>>) -> Option<&[u8]> {
    match text {
        None => None,
        Some(text) => Some(text.as_slice()),
    }
}

/// Returns the operation of a frame.
fn command_of(frame: &InvalidTexts) -> &[u8] {
    frame.command.as_bytes()
}

/// Returns what is told of an invalid frame.
fn invalid_of(frame: &InvalidTexts) -> Invalid<'_> {
    Invalid {
        command: command_of(frame),
        subject: frame.subject.as_slice(),
        queue: bytes_of(&frame.queue),
        reply: bytes_of(&frame.reply),
    }
}

/// Returns the account of a user, if there is one.
pub(crate) fn account_of(user: Option<&User>) -> Option<Bytes> {
    user?.account.clone().ok()
}

/// Returns the bytes of a name, if there is one.
fn name_in(name: &Option<SharedText>) -> Option<&[u8]> {
    match name {
        None => None,
        Some(name) => Some(name.as_slice()),
    }
}

/// Returns the bytes of a queue, if there is one.
fn queue_in(queue: &Option<Subject>) -> Option<&[u8]> {
    match queue {
        None => None,
        Some(queue) => Some(queue.bytes()),
    }
}

/// Returns what is told of a message that is denied.
fn denied_message<'x>(
    message: &'x Message,
    verdict: Verdict,
    entry: Option<&'x [u8]>,
    grant: Option<GrantEnd>,
) -> Denial<'x> {
    Denial {
        command: "PUB",
        subject: Some(message.subject().bytes()),
        queue: None,
        sid: None,
        verdict,
        entry,
        grant,
    }
}

/// Returns what is told of a subscription that is denied.
fn denied_subscription<'x>(
    subject: &'x Pattern,
    queue: &'x Option<Subject>,
    verdict: Verdict,
    entry: Option<&'x [u8]>,
) -> Denial<'x> {
    Denial {
        command: "SUB",
        subject: Some(subject.bytes()),
        queue: queue_in(queue),
        sid: None,
        verdict,
        entry,
        grant: None,
    }
}

impl<'a> ServerLog<'a> {
    ghost use Rattle.std.specs.Prelude.{◌≡◌};

    /// Returns the log of a server that tells so much, by these lines.
    pub fn new(alloc: Global, level: LogLevel, prints: &'a Prints) -> ServerLog<'a> {
        ServerLog {
            alloc,
            level,
            prints,
            total: Mutex::new(Rate::new()),
            policies: Mutex::new(Vec::new(alloc)),
        }
    }

    /// Returns how much is told.
    pub fn level(&self) -> LogLevel
        ensures { result ≡ self.now.level }
    {
        self.level
    }

    /// Notes the policy that has an epoch, or is to have it. Without memory it isn't known.
    pub fn note_policy<R: Wait>(&self, rt: &R, epoch: u128, ready: &CompiledPolicy) {
        let Ok(ready) = ready.copy(self.alloc) else {
            return;
        };
        let mut policies = self.policies.lock(rt);
        if policies.len() >= KEPT {
            drop(policies.remove(0));
        }
        drop(policies.push(InForce { epoch, ready }));
    }

    /// Forgets the last policy that was noted, since it didn't come into force.
    pub fn forget_policy<R: Wait>(&self, rt: &R) {
        let mut policies = self.policies.lock(rt);
        drop(policies.pop());
    }

    /// Returns the policy of an epoch, if it is known.
    pub(crate) fn policy_of<R: Wait>(&self, rt: &R, epoch: u128) -> Option<CompiledPolicy> {
        let policies = self.policies.lock(rt);
        let found = policies.as_slice().iter().find(|it| it.epoch == epoch)?;
        found.ready.copy(self.alloc).ok()
    }

    /// Returns the moment, in milliseconds since 1970, or 0 where the system has no such clock.
    pub fn moment<R: Clock>(&self, rt: &R) -> u64 {
        match rt.since_1970() {
            Ok(time) => u64::try_from(time.as_millis()).unwrap_or(u64::MAX),
            Err(_) => 0,
        }
    }

    /// Lets a line of a connection through, if it and all have had few enough in this second.
    fn admit<R: Wait + Clock>(&self, rt: &R, rate: &mut Rate) -> Option<Admitted> {
        let at = self.moment(rt);
        let before = rate.admit(at / 1000, MOST_OF_ONE)?;
        self.admit_all(rt, at, before)
    }

    /// Lets a line through, if all have had few enough in this second. `before` are those of its connection that were left
    /// out.
    fn admit_all<R: Wait>(&self, rt: &R, at: u64, before: u64) -> Option<Admitted> {
        let mut total = self.total.lock(rt);
        match total.admit(at / 1000, MOST_OF_ALL) {
            None => {
                total.add_left_out(before);
                None
            }
            Some(others) => Some(Admitted {
                at,
                left_out: before.saturating_add(others),
            }),
        }
    }

    /// Counts lines that were left out.
    fn leave_out<R: Wait>(&self, rt: &R, count: u64) {
        let mut total = self.total.lock(rt);
        total.add_left_out(count);
    }

    /// Hands a notice's line to the thread that writes it. Where too much waits, or memory lacks, it is left out.
    fn put<R: Wait>(&self, rt: &R, notice: &Notice<'_>) {
        let is_put = match line_of(self.alloc, notice) {
            Err(_) => false,
            Ok(line) => self.prints.add(rt, line.as_slice()),
        };
        if !is_put {
            self.leave_out(rt, notice.left_out.saturating_add(1));
        }
    }

    /// Tells something that is no connection's.
    pub fn tell<R: Wait + Clock>(&self, rt: &R, what: What<'_>) {
        if self.level == LogLevel::None {
            return;
        }
        let at = self.moment(rt);
        let Some(admitted) = self.admit_all(rt, at, 0) else {
            return;
        };
        self.put(
            rt,
            &Notice {
                at: admitted.at,
                conn: None,
                peer: None,
                user: None,
                account: None,
                program: NOT_SAID,
                what,
                left_out: admitted.left_out,
            },
        );
    }

    /// Tells something that an operator has to know: where the log tells nothing, this plain line has it.
    pub fn tell_or_print<R: Wait + Clock>(&self, rt: &R, what: What<'_>, line: &[u8]) {
        if self.level != LogLevel::None {
            self.tell(rt, what);
            return;
        }
        if let Ok(mut text) = Vec::from_slice(self.alloc, line) {
            if text.push(b'\n').is_ok() {
                let _ = self.prints.add(rt, text.as_slice());
            }
        }
    }

    /// Tells what the system has refused, and why, so that the server ends.
    pub fn tell_failed<R: Wait + Clock>(&self, rt: &R, what: &str, error: &io::Error) {
        if let Ok(why) = format!(in self.alloc; "{what}: {error}") {
            let why = why.as_str().as_bytes();
            self.tell_or_print(rt, What::Failed(why), why);
        }
    }

    /// Tells something of a connection, with what is known of its client.
    pub fn tell_of<R: Wait + Clock>(&self, rt: &R, party: &mut Party, what: What<'_>) {
        if matches!(&what, What::SlowConsumer(_)) {
            party.note_ending(Ending::SlowConsumer);
        }
        if self.level == LogLevel::None {
            return;
        }
        let Some(admitted) = self.admit(rt, &mut party.rate) else {
            return;
        };
        self.put_of(rt, party, admitted, what);
    }

    /// Hands over the line of a connection, with what is known of its client.
    fn put_of<R: Wait>(&self, rt: &R, party: &Party, admitted: Admitted, what: What<'_>) {
        let account = match &party.account {
            None => None,
            Some(account) => Some(account.as_slice()),
        };
        self.put_named(rt, party, admitted, (name_in(&party.user), account), what);
    }

    /// Hands over the line of a connection, with the names of its user and account, as far as they are known.
    fn put_named<R: Wait>(
        &self,
        rt: &R,
        party: &Party,
        admitted: Admitted,
        names: (Option<&[u8]>, Option<&[u8]>),
        what: What<'_>,
    ) {
        let peer = match party.peer {
            None => None,
            Some(peer) => format!(in self.alloc; "{peer}").ok(),
        };
        let notice = Notice {
            at: admitted.at,
            conn: Some(party.conn),
            peer: match &peer {
                None => None,
                Some(peer) => Some(peer.as_str().as_bytes()),
            },
            user: names.0,
            account: names.1,
            program: party.program(),
            what,
            left_out: admitted.left_out,
        };
        self.put(rt, &notice);
    }

    /// Tells what a connection's turn has noted, and notes in `party` who the connection is since then. Returns whether its client was
    /// told of an authorization that failed.
    pub fn tell_noted<R: Wait + Clock, E: GrantEnds>(
        &self,
        rt: &R,
        party: &mut Party,
        noted: Noted,
        ends: &E,
    ) -> bool {
        let mut has_failed = noted.is_gone;
        if noted.is_gone {
            self.tell_of(rt, party, What::Gone);
        }
        for answer in noted.answers.as_slice() {
            let entry = answer.get();
            has_failed = has_failed || matches!(&entry.outcome, Outcome::AuthViolation);
            self.tell_entry(rt, party, entry, ends);
        }
        self.tell_invalid(rt, party, noted.take_invalid());
        let left_out = noted.left_out();
        if left_out > 0 {
            party.rate.add_left_out(left_out);
        }
        has_failed
    }

    /// Tells the frames of a connection for which its client was sent `Invalid Subject`. `None` is a list that can't be taken: it
    /// tells nothing.
    fn tell_invalid<R: Wait + Clock>(
        &self,
        rt: &R,
        party: &mut Party,
        frames: Option<Vec<InvalidTexts>>,
    ) {
        let Some(frames) = frames else {
            return;
        };
        for frame in frames.as_slice() {
            self.tell_of(rt, party, What::InvalidSubject(invalid_of(frame)));
        }
    }

    /// Tells an entry of a connection.
    fn tell_entry<R: Wait + Clock, E: GrantEnds>(
        &self,
        rt: &R,
        party: &mut Party,
        entry: &Entry,
        ends: &E,
    ) {
        match &entry.outcome {
            Outcome::Connected => self.tell_connect(rt, party, entry),
            Outcome::AuthViolation => self.tell_failure(rt, party, entry),
            Outcome::Denied(verdict) => self.tell_denial(rt, party, entry, *verdict, ends),
            Outcome::Published(_, met) => self.tell_unrouted(rt, party, entry, met.as_slice()),
            Outcome::Taken(_, _) => {
                self.tell_of(rt, party, What::SlowConsumer(Slowness::OutboxFull))
            }
            Outcome::Closed => {
                let what = party.closed(entry.event.now);
                self.tell_of(rt, party, what);
            }
            _ => {}
        }
    }

    /// Notes who a connection's client is, and tells that it has connected, where that is told.
    fn tell_connect<R: Wait + Clock>(&self, rt: &R, party: &mut Party, entry: &Entry) {
        if let Command::Connect {
            user: Some(name),
            ..
        } = &entry.event.what
        {
            let policy = self.policy_of(rt, entry.epoch);
            party.account = account_of(user_named(&policy, Some(name.as_slice())));
            party.user = name.again().ok();
        }
        party.note_begin(entry.event.now);
        if self.level == LogLevel::All {
            self.tell_of(rt, party, What::Connected);
        }
    }

    /// Tells that no user has the name and password of a CONNECT.
    fn tell_failure<R: Wait + Clock>(&self, rt: &R, party: &mut Party, entry: &Entry) {
        let Some(admitted) = self.admit(rt, &mut party.rate) else {
            return;
        };
        let name = match &entry.event.what {
            Command::Connect { user, .. } => name_in(user),
            _ => None,
        };
        self.put_named(rt, party, admitted, (name, None), What::AuthFailed);
    }

    /// Tells what a user's permissions have refused, by the entry of the policy in force at it.
    fn tell_denial<R: Wait + Clock, E: GrantEnds>(
        &self,
        rt: &R,
        party: &mut Party,
        entry: &Entry,
        verdict: Verdict,
        ends: &E,
    ) {
        let Some(admitted) = self.admit(rt, &mut party.rate) else {
            return;
        };
        let policy = self.policy_of(rt, entry.epoch);
        let user = user_named(&policy, name_in(&party.user));
        match &entry.event.what {
            Command::Pub { message, .. } => {
                let rule = text_of(self.alloc, entry_of(user, true, verdict));
                let grant = ends.grant_end(party.conn, message);
                let denial = denied_message(message, verdict, bytes_of(&rule), grant);
                self.put_of(rt, party, admitted, What::Denied(denial));
            }
            Command::Sub { subject, queue, .. } => {
                let rule = text_of(self.alloc, entry_of(user, false, verdict));
                let denial = denied_subscription(subject.get(), queue, verdict, bytes_of(&rule));
                self.put_of(rt, party, admitted, What::Denied(denial));
            }
            _ => {}
        }
    }

    /// Tells at which imports a message was a request that was given to nobody, since the exporter has as many response routes
    /// as it may have.
    fn tell_unrouted<R: Wait + Clock>(
        &self,
        rt: &R,
        party: &mut Party,
        entry: &Entry,
        items: &[Item],
    ) {
        let Command::Pub { message, .. } = &entry.event.what else {
            return;
        };
        for item in items {
            if let Item::RouteFull(row) = item {
                let request = Unrouted {
                    subject: message.subject().bytes(),
                    import: row.get().index as u64,
                };
                self.tell_of(rt, party, What::RouteFull(request));
            }
        }
    }

    /// Tells of a subscription that a reload has removed, by the entry of the new policy.
    pub fn tell_removed<R: Wait + Clock>(
        &self,
        rt: &R,
        party: &mut Party,
        epoch: u128,
        removed: &Removed,
    ) {
        if self.level == LogLevel::None {
            return;
        }
        let Some(admitted) = self.admit(rt, &mut party.rate) else {
            return;
        };
        let policy = self.policy_of(rt, epoch);
        let user = user_named(&policy, name_in(&party.user));
        let rule = text_of(self.alloc, entry_of(user, false, removed.verdict));
        let denial = Denial {
            command: "SUB",
            subject: Some(removed.subject.get().bytes()),
            queue: queue_in(&removed.queue),
            sid: Some(removed.sid.as_slice()),
            verdict: removed.verdict,
            entry: bytes_of(&rule),
            grant: None,
        };
        self.put_of(rt, party, admitted, What::Removed(denial));
    }

    /// Tells the errors among the texts that a client was sent, but for those that are told of its answers.
    pub fn tell_errors<R: Wait + Clock>(
        &self,
        rt: &R,
        party: &mut Party,
        texts: &[u8],
        has_failed: bool,
    ) {
        if self.level == LogLevel::None {
            return;
        }
        for line in texts.split(|byte| *byte == b'\n') {
            if let Some(error) = error_in(line) {
                if !is_told_elsewhere(error, has_failed) {
                    self.tell_of(rt, party, what_of(error));
                }
            }
        }
    }

    /// Keeps the count of lines of a connection that ends, which were left out.
    pub fn forget<R: Wait>(&self, rt: &R, party: &Party) {
        if party.rate.left_out > 0 {
            self.leave_out(rt, party.rate.left_out);
        }
    }

    /// Notes that nothing will be told any more.
    pub fn end<R: Wait>(&self, rt: &R) {
        self.prints.end(rt);
    }
}

/// Returns the text of an error, where a line is one: it stands between `'`.
fn error_in(line: &[u8]) -> Option<&[u8]> {
    let line = line.strip_suffix(b"\r").unwrap_or(line);
    let text = line.strip_prefix(b"-ERR '")?;
    text.strip_suffix(b"'")
}

/// Returns whether an error is told of an answer, or of a frame.
fn is_told_elsewhere(error: &[u8], has_failed: bool) -> bool {
    error == b"Invalid Subject".as_slice()
        || error.starts_with(b"Permissions Violation ")
        || has_failed && error == b"Authorization Violation".as_slice()
}
