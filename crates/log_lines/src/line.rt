//! The line of a notice.
ghost use Rattle.std.specs.Prelude.{◌≡◌, ◌++◌, IfOk, OnOk, codes};
ghost use Rattle.std.specs.Option.{option_copied, option_map};
ghost use Rattle.log_lines.specs.Lines.{closed, count, count_if, denial, details, ending_name, grant_name, index_of, invalid, left_out, level_of, limit_level, limits, line_of, members_of, name_of, party, program, program_if, proved_name, reason_of, started, tells_program, text, text_if, unrouted, verdict_name, IsWritten};

use crate::notice::{Denial, Ending, Invalid, Notice, Program, Slowness, Started, Unrouted, What};
use base::NoMemory;
use json::Writer;
use permissions::Verdict;
use reply_grants::GrantEnd;
use std::alloc::Global;

/// Returns the line that tells a notice: one JSON object, and LF. `NoMemory` where memory could not be had.
pub fn line_of(alloc: Global, notice: &Notice<'_>) -> Result<Vec<u8>, NoMemory>
    ensures { IfOk result (λ line. line.items ≡ line_of notice.now) }
{
    let mut out = Writer::new(Vec::new(alloc));
    out.begin_object()?;
    put_members(alloc, &mut out, notice)?;
    out.end_object()?;
    let mut line = out.into_inner();
    line.push(b'\n')?;
    Ok(line)
}

/// Writes the members of a notice.
fn put_members(alloc: Global, out: &mut Writer, notice: &Notice<'_>) -> Result<(), NoMemory>
    ensures { OnOk result (IsWritten out.old out.new (members_of notice.now)) }
{
    put_count(out, "at", notice.at)?;
    put_text(alloc, out, "event", name_of(&notice.what).as_bytes())?;
    put_text(alloc, out, "level", level_of(&notice.what).as_bytes())?;
    put_party(alloc, out, notice)?;
    put_program_if(alloc, out, notice)?;
    put_details(alloc, out, &notice.what)?;
    put_left_out(out, notice.left_out)?;
    Ok(())
}

/// Writes whose it is, as far as that is known.
fn put_party(alloc: Global, out: &mut Writer, notice: &Notice<'_>) -> Result<(), NoMemory>
    ensures { OnOk result (IsWritten out.old out.new (party notice.now)) }
{
    put_count_if(out, "conn", notice.conn)?;
    put_text_if(alloc, out, "peer", notice.peer)?;
    put_text_if(alloc, out, "user", notice.user)?;
    put_text_if(alloc, out, "account", notice.account)?;
    Ok(())
}

/// Writes what a client has said of its program, where that is told.
fn put_program_if(alloc: Global, out: &mut Writer, notice: &Notice<'_>) -> Result<(), NoMemory>
    ensures { OnOk result (IsWritten out.old out.new (program_if (tells_program notice.now.what) notice.now.program)) }
{
    if tells_program(&notice.what) {
        return put_program(alloc, out, &notice.program);
    }
    Ok(())
}

/// Writes what a client has said of its program.
fn put_program(alloc: Global, out: &mut Writer, told: &Program<'_>) -> Result<(), NoMemory>
    ensures { OnOk result (IsWritten out.old out.new (program told.now)) }
{
    put_text_if(alloc, out, "name", told.name)?;
    put_text_if(alloc, out, "lang", told.lang)?;
    put_text_if(alloc, out, "version", told.version)?;
    Ok(())
}

/// Returns whether it is told what the client has said of its program: with who logs in or fails to, and with what is
/// denied.
fn tells_program(what: &What<'_>) -> bool
    ensures { result ≡ tells_program what.now }
{
    match what {
        What::Connected => true,
        What::AuthFailed => true,
        What::Denied(_) => true,
        _ => false,
    }
}

/// Returns how much a line matters: `error` where no client can come in, `warning` where one was refused or something
/// is wrong, and else `info`.
fn level_of(what: &What<'_>) -> &'static str
    ensures { result.now ≡ level_of what.now }
{
    match what {
        What::Failed(_) => "error",
        What::NoDescriptors => "error",
        What::Limit(text) => limit_level(text),
        What::Started(_) => "info",
        What::Connected => "info",
        What::Closed { .. } => "info",
        What::Reloaded { .. } => "info",
        What::PolicyReadable => "info",
        _ => "warning",
    }
}

/// Returns how much it matters that a limit was met: those of all connections and sessions keep others out.
fn limit_level(text: &[u8]) -> &'static str
    ensures { result.now ≡ limit_level text.now }
{
    if text == b"connections".as_slice() || text == b"Maximum Connections Exceeded".as_slice() {
        "error"
    } else {
        "warning"
    }
}

/// Returns the name of what has happened.
fn name_of(what: &What<'_>) -> &'static str
    ensures { result.now ≡ name_of what.now }
{
    match what {
        What::Started(_) => "started",
        What::Connected => "connected",
        What::Closed { .. } => "closed",
        What::AuthFailed => "auth_failed",
        What::Denied(_) => "denied",
        What::SlowConsumer(_) => "slow_consumer",
        What::ProtocolError(_) => "protocol_error",
        What::InvalidSubject(_) => "protocol_error",
        What::Limit(_) => "limit",
        What::RouteFull(_) => "limit",
        What::NoDescriptors => "no_descriptors",
        What::Reloaded { .. } => "reloaded",
        What::Gone => "gone",
        What::Removed(_) => "removed",
        What::PolicyRefused { .. } => "policy_refused",
        What::PolicyWarning(_) => "policy_warning",
        What::PolicyUnreadable(_) => "policy_unreadable",
        What::PolicyReadable => "policy_readable_again",
        What::Failed(_) => "failed",
    }
}

/// Writes what it has beside its name.
fn put_details(alloc: Global, out: &mut Writer, what: &What<'_>) -> Result<(), NoMemory>
    ensures { OnOk result (IsWritten out.old out.new (details what.now)) }
{
    match what {
        What::Denied(denial) => put_denial(alloc, out, denial),
        What::Removed(denial) => put_denial(alloc, out, denial),
        What::SlowConsumer(why) => put_text(alloc, out, "reason", reason_of(*why).as_bytes()),
        What::ProtocolError(text) => put_text(alloc, out, "text", text),
        What::InvalidSubject(frame) => put_invalid(alloc, out, frame),
        What::Limit(text) => put_text(alloc, out, "text", text),
        What::RouteFull(request) => put_unrouted(alloc, out, request),
        What::PolicyRefused { text, place } => put_fault(alloc, out, text, *place),
        What::PolicyWarning(text) => put_text(alloc, out, "text", text),
        What::Failed(text) => put_text(alloc, out, "text", text),
        What::PolicyUnreadable(text) => put_text(alloc, out, "text", text),
        What::Reloaded {
            epoch,
            gone,
            removed,
        } => put_reload(out, *epoch, *gone, *removed),
        What::Started(it) => put_started(alloc, out, it),
        What::Closed { why, lasted } => put_closed(alloc, out, *why, *lasted),
        What::Connected => Ok(()),
        What::AuthFailed => Ok(()),
        What::NoDescriptors => Ok(()),
        What::Gone => Ok(()),
        What::PolicyReadable => Ok(()),
    }
}

/// Writes what a server is, and what it was started with.
fn put_started(alloc: Global, out: &mut Writer, it: &Started<'_>) -> Result<(), NoMemory>
    ensures { OnOk result (IsWritten out.old out.new (started it.now)) }
{
    put_text(alloc, out, "version", it.version)?;
    put_text_if(alloc, out, "commit", it.commit)?;
    put_proved(alloc, out, it.is_proved)?;
    put_text_if(alloc, out, "policy", it.policy)?;
    put_text(alloc, out, "listen", it.listen)?;
    put_limits(out, it)?;
    Ok(())
}

/// Writes how many threads a server has, and its limits.
fn put_limits(out: &mut Writer, it: &Started<'_>) -> Result<(), NoMemory>
    ensures { OnOk result (IsWritten out.old out.new (limits it.now)) }
{
    put_count(out, "workers", it.workers)?;
    put_count(out, "connections", it.connections)?;
    put_count(out, "outbox", it.outbox)?;
    put_count(out, "history", it.history)?;
    put_count(out, "history_bytes", it.history_bytes)?;
    put_count(out, "keepalive", it.keepalive)?;
    Ok(())
}

/// Writes whether the program is proved, where that is known.
fn put_proved(alloc: Global, out: &mut Writer, is_proved: Option<bool>) -> Result<(), NoMemory>
    ensures { OnOk result (IsWritten out.old out.new (text_if (codes "proved") (option_map proved_name is_proved))) }
{
    match is_proved {
        None => Ok(()),
        Some(true) => put_text(alloc, out, "proved", b"yes"),
        Some(false) => put_text(alloc, out, "proved", b"no"),
    }
}

/// Writes why a session has ended, and how long it was, as far as that is known.
fn put_closed(
    alloc: Global,
    out: &mut Writer,
    why: Option<Ending>,
    lasted: Option<u64>,
) -> Result<(), NoMemory>
    ensures { OnOk result (IsWritten out.old out.new (closed why lasted)) }
{
    put_ending(alloc, out, why)?;
    put_count_if(out, "lasted", lasted)?;
    Ok(())
}

/// Writes why a session has ended, if that is known.
fn put_ending(alloc: Global, out: &mut Writer, why: Option<Ending>) -> Result<(), NoMemory>
    ensures { OnOk result (IsWritten out.old out.new (text_if (codes "reason") (option_map ending_name why))) }
{
    match why {
        None => Ok(()),
        Some(why) => put_text(alloc, out, "reason", ending_name(why).as_bytes()),
    }
}

/// Returns why a session has ended, in words.
fn ending_name(why: Ending) -> &'static str
    ensures { result.now ≡ ending_name why }
{
    match why {
        Ending::ClientLeft => "client left",
        Ending::SocketFailed => "socket failed",
        Ending::SlowConsumer => "slow consumer",
        Ending::ErrorSent => "error sent",
        Ending::NoMemory => "no memory",
    }
}

/// Writes what a reload has done.
fn put_reload(out: &mut Writer, epoch: u64, gone: u64, removed: u64) -> Result<(), NoMemory>
    ensures { OnOk result (IsWritten out.old out.new (count (codes "epoch") epoch ++ count (codes "gone") gone ++ count (codes "removed") removed)) }
{
    put_count(out, "epoch", epoch)?;
    put_count(out, "gone", gone)?;
    put_count(out, "removed", removed)?;
    Ok(())
}

/// Writes a policy's fault, and where it is, where that is known.
fn put_fault(
    alloc: Global,
    out: &mut Writer,
    fault: &[u8],
    place: Option<&[u8]>,
) -> Result<(), NoMemory>
    ensures { OnOk result (IsWritten out.old out.new (text (codes "text") fault.now ++ text_if (codes "place") (option_copied place.entry))) }
{
    put_text(alloc, out, "text", fault)?;
    put_text_if(alloc, out, "place", place)?;
    Ok(())
}

/// Returns why a client is too slow, in words.
fn reason_of(why: Slowness) -> &'static str
    ensures { result.now ≡ reason_of why }
{
    match why {
        Slowness::OutboxFull => "outbox full",
        Slowness::TooMuchWaits => "too much waits",
        Slowness::TakesNothing => "takes nothing",
        Slowness::ReadsNothing => "reads nothing",
    }
}

/// Writes the fields of a notice `Invalid Subject`: that text, the command, and the subject, queue and reply as the
/// client wrote them.
fn put_invalid(alloc: Global, out: &mut Writer, frame: &Invalid<'_>) -> Result<(), NoMemory>
    ensures { OnOk result (IsWritten out.old out.new (invalid frame.now)) }
{
    put_text(alloc, out, "text", b"Invalid Subject")?;
    put_text(alloc, out, "command", frame.command)?;
    put_text(alloc, out, "subject", frame.subject)?;
    put_text_if(alloc, out, "queue", frame.queue)?;
    put_text_if(alloc, out, "reply", frame.reply)?;
    Ok(())
}

/// Writes a request that was given to nobody.
fn put_unrouted(alloc: Global, out: &mut Writer, request: &Unrouted<'_>) -> Result<(), NoMemory>
    ensures { OnOk result (IsWritten out.old out.new (unrouted request.now)) }
{
    put_text(alloc, out, "text", b"routes")?;
    put_text(alloc, out, "subject", request.subject)?;
    put_count(out, "import", request.import)?;
    Ok(())
}

/// Writes what was refused, and why.
fn put_denial(alloc: Global, out: &mut Writer, refused: &Denial<'_>) -> Result<(), NoMemory>
    ensures { OnOk result (IsWritten out.old out.new (denial refused.now)) }
{
    put_text(alloc, out, "command", refused.command.as_bytes())?;
    put_text_if(alloc, out, "subject", refused.subject)?;
    put_text_if(alloc, out, "queue", refused.queue)?;
    put_text_if(alloc, out, "sid", refused.sid)?;
    put_text(
        alloc,
        out,
        "verdict",
        verdict_name(refused.verdict).as_bytes(),
    )?;
    put_count_if(out, "index", index_of(refused.verdict))?;
    put_text_if(alloc, out, "entry", refused.entry)?;
    put_grant(alloc, out, refused.grant)?;
    Ok(())
}

/// Writes why a grant doesn't allow a message, if that is known.
fn put_grant(alloc: Global, out: &mut Writer, grant: Option<GrantEnd>) -> Result<(), NoMemory>
    ensures { OnOk result (IsWritten out.old out.new (text_if (codes "reason") (option_map grant_name grant))) }
{
    match grant {
        None => Ok(()),
        Some(end) => put_text(alloc, out, "reason", grant_name(end).as_bytes()),
    }
}

/// Returns why a grant answers no more, in words.
fn grant_name(end: GrantEnd) -> &'static str
    ensures { result.now ≡ grant_name end }
{
    match end {
        GrantEnd::UsedUp => "grant used up",
        GrantEnd::Expired => "grant expired",
    }
}

/// Returns a verdict's name.
fn verdict_name(verdict: Verdict) -> &'static str
    ensures { result.now ≡ verdict_name verdict }
{
    match verdict {
        Verdict::Allowed(_) => "allowed",
        Verdict::DeniedBy(_) => "denied",
        Verdict::NoAllow => "no allow",
        Verdict::NoQueueAllow(_) => "no queue allow",
    }
}

/// Returns the index of the entry that a verdict names, if it names one.
fn index_of(verdict: Verdict) -> Option<u64>
    ensures { result ≡ index_of verdict }
{
    match verdict {
        Verdict::Allowed(_) => None,
        Verdict::DeniedBy(index) => Some(index as u64),
        Verdict::NoAllow => None,
        Verdict::NoQueueAllow(index) => Some(index as u64),
    }
}

/// Writes how many lines were left out, where some were.
fn put_left_out(out: &mut Writer, count: u64) -> Result<(), NoMemory>
    ensures { OnOk result (IsWritten out.old out.new (left_out count)) }
{
    if count == 0 {
        return Ok(());
    }
    put_count(out, "left_out", count)
}

/// Writes a name and a text. What isn't UTF-8 is replaced by U+FFFD.
fn put_text(alloc: Global, out: &mut Writer, name: &str, bytes: &[u8]) -> Result<(), NoMemory>
    ensures { OnOk result (IsWritten out.old out.new (text name.now bytes.now)) }
{
    let shown = String::from_utf8_lossy(alloc, bytes)?;
    out.key(name)?;
    out.string(shown.as_str())?;
    Ok(())
}

/// Writes a name and a text, where there is one.
fn put_text_if(
    alloc: Global,
    out: &mut Writer,
    name: &str,
    bytes: Option<&[u8]>,
) -> Result<(), NoMemory>
    ensures { OnOk result (IsWritten out.old out.new (text_if name.now (option_copied bytes.entry))) }
{
    match bytes {
        None => Ok(()),
        Some(bytes) => put_text(alloc, out, name, bytes),
    }
}

/// Writes a name and a number.
fn put_count(out: &mut Writer, name: &str, number: u64) -> Result<(), NoMemory>
    ensures { OnOk result (IsWritten out.old out.new (count name.now number)) }
{
    out.key(name)?;
    out.u64(number)?;
    Ok(())
}

/// Writes a name and a number, where there is one.
fn put_count_if(out: &mut Writer, name: &str, number: Option<u64>) -> Result<(), NoMemory>
    ensures { OnOk result (IsWritten out.old out.new (count_if name.now number)) }
{
    match number {
        None => Ok(()),
        Some(number) => put_count(out, name, number),
    }
}
