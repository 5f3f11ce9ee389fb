// A script over one hub (docs/SCRIPT.md).
ghost use Rattle.std.specs.Prelude.{◌≡◌, ◌≤◌, List, IfOk, OnOk, nat_lt, length, ◌||◌, OnErr};
ghost use Rattle.std.specs.List.{position_or_len};
ghost use Rattle.std.specs.Io.KnownBytes.{Appends};
ghost use Rattle.script.specs.declared.client.Client.{Client};
ghost use Rattle.lines.specs.declared.script_text.lines.Progress.{Progress};
ghost use Rattle.script.specs.Play.{drained, done_in, is_open, with_client, caps_effect, line_effect, still_open, line_and_drains, IsEffect, output_of};
ghost use Rattle.script.specs.Server.{Serving};
ghost use Rattle.devices.specs.Device.{AppendsFront};
ghost use Rattle.script.specs.Fault.{is_write_failed};

use crate::client::Client;
use crate::fault::LinesFault;
use crate::policies::{on_policy, on_reload};
use crate::server::Server;
use base::{NoMemory, Pieces};
use devices::{Sink, write_all};
use hub::Caps;
use lines::script_text::{ClientLine, Line, Progress, read_line, write_refused, write_shown};
use policy_doc::Policy;
use std::alloc::Global;
use std::hash::RandomState;

/// Drains every connection, in ascending order.
fn drain_all(
    alloc: Global,
    server: &mut Server,
    clients: &mut [Client],
    out: &mut Vec<u8>,
) -> Result<bool, NoMemory>
    ensures { IfOk result (λ stops. IsEffect (drained clients.old server.old) out.old.items out.new.items clients.new server.new stops) }
{
    'draining: for client in clients.iter_mut() {
        if client.drain(alloc, server, out)? {
            return Ok(true);
        }
    }
    Ok(false)
}

/// Does what a line says to the connection of that number, if it is open.
fn on_client(
    alloc: Global,
    server: &mut Server,
    clients: &mut [Client],
    conn: u64,
    said: &ClientLine,
    out: &mut Vec<u8>,
) -> Result<bool, NoMemory>
    ensures { IfOk result (λ stops. IsEffect (done_in conn said.now server.old clients.old) out.old.items out.new.items clients.new server.new stops) }
{
    'looking: for client in clients.iter_mut() {
        if client.conn.number() == conn {
            let full = client.on_client_line(alloc, server, said, out)?;
            return Ok(full);
        }
    }
    Ok(false)
}

/// How many connections have no greater number.
fn place_for(clients: &[Client], conn: u64) -> usize
    ensures place { result ≡ position_or_len (λ x. nat_lt conn x.conn.conn) clients.now }
    ensures within { result ≤ length clients.now }
{
    clients
        .iter()
        .take_while(|client| client.conn.number() <= conn)
        .count()
}

/// Adds a connection, before the first of a greater number.
fn add_client(clients: &mut Vec<Client>, client: Client) -> Result<(), NoMemory>
    ensures { OnOk result (clients.new.items ≡ with_client client clients.old.items) }
{
    let place = place_for(clients.as_slice(), client.conn.number());
    clients.insert(place, client)?;
    Ok(())
}

/// Whether a connection of that number is open.
fn is_open(clients: &[Client], conn: u64) -> bool
    ensures { result ≡ is_open clients.now conn }
{
    clients.iter().any(|client| client.conn.number() == conn)
}

/// Forgets the connections that have closed.
fn remove_closed(clients: &mut Vec<Client>)
    ensures { clients.new.items ≡ still_open clients.old.items }
{
    clients.retain(|client| !client.conn.stage().is_closed());
}

/// A new connection, unless one of that number is open.
fn open(
    alloc: Global,
    clients: &mut Vec<Client>,
    number: u64,
    conn: u64,
    out: &mut Vec<u8>,
) -> Result<bool, NoMemory>
    ensures { (progress : Progress) (w : Serving) → IfOk result (λ stops. IsEffect (line_effect number progress (Line.Open conn) w clients.old.items) out.old.items out.new.items clients.new.items w stops) }
{
    if is_open(clients.as_slice(), conn) {
        write_refused(out, number)?;
        return Ok(true);
    }
    let client = Client::new(alloc, conn);
    let opened = client.conn.opened(alloc);
    if opened.stall.is_some() {
        return Err(NoMemory);
    }
    write_shown(out, conn, opened.bytes.as_slice())?;
    add_client(clients, client)?;
    Ok(false)
}

/// Sets caps in the place of the usual ones, or prints the line that refuses them. Only the first of a script's lines may give
/// caps.
fn set_caps(
    alloc: Global,
    server: &mut Server,
    number: u64,
    progress: Progress,
    caps: Caps,
    out: &mut Vec<u8>,
) -> Result<bool, NoMemory>
    ensures { (clients : List Client) → IfOk result (λ stops. IsEffect (caps_effect number progress caps server.old clients) out.old.items out.new.items clients server.new stops) }
{
    match progress {
        Progress::Head => {
            if 1 <= caps.outbox && caps.outbox <= 65_536 {
                server.set_caps(alloc, caps)?;
                return Ok(false);
            }
            write_refused(out, number)?;
            Ok(true)
        }
        Progress::Capped => {
            write_refused(out, number)?;
            Ok(true)
        }
        Progress::Body => {
            write_refused(out, number)?;
            Ok(true)
        }
    }
}

/// A line of a script, with its number and the part that it stands in.
#[derive(Drop)]
struct NumberedLine {
    number: u64,
    progress: Progress,
    line: Line,
}

/// Does what a line itself says.
fn on_line(
    alloc: Global,
    server: &mut Server,
    clients: &mut Vec<Client>,
    numbered: NumberedLine,
    out: &mut Vec<u8>,
) -> Result<bool, NoMemory>
    ensures { IfOk result (λ stops. IsEffect (line_effect numbered.number numbered.progress numbered.line server.old clients.old.items) out.old.items out.new.items clients.new.items server.new stops) }
{
    let NumberedLine {
        number,
        progress,
        line,
    } = numbered;
    match line {
        Line::Skip => Ok(false),
        Line::Caps { outbox, history } => {
            let caps = Caps {
                outbox: outbox as usize,
                history: history as usize,
            };
            Ok(set_caps(alloc, server, number, progress, caps, out)?)
        }
        Line::Policy(text) => {
            Ok(on_policy(alloc, server, number, progress, text.as_slice(), out)?)
        }
        Line::Reload(text) => { Ok(on_reload(alloc, server, text.as_slice(), out)?) }
        Line::Open(conn) => {
            let stops = open(alloc, clients, number, conn, out)?;
            Ok(stops)
        }
        Line::Client(conn, said) => {
            Ok(on_client(alloc, server, clients.as_mut_slice(), conn, &said, out)?)
        }
        Line::Now(moment) => {
            server.set_moment(moment);
            Ok(false)
        }
        Line::Word(word) => {
            server.add_word(word)?;
            Ok(false)
        }
        Line::Other => {
            write_refused(out, number)?;
            Ok(true)
        }
    }
}

/// Does what a line says, and then drains all connections.
#[tactic(auto, unfolding(crate::specs::Play::line_and_drains))]
fn on_line_and_drain(
    alloc: Global,
    server: &mut Server,
    clients: &mut Vec<Client>,
    numbered: NumberedLine,
    out: &mut Vec<u8>,
) -> Result<bool, NoMemory>
    ensures { IfOk result (λ stops. IsEffect (line_and_drains numbered.number numbered.progress numbered.line server.old clients.old.items) out.old.items out.new.items clients.new.items server.new stops) }
{
    if on_line(alloc, server, clients, numbered, out)? {
        return Ok(true);
    }
    let stops = drain_all(alloc, server, clients.as_mut_slice(), out)?;
    remove_closed(clients);
    Ok(stops)
}

/// Plays the lines of a script, and writes what they print to the sink, line by line (docs/SCRIPT.md). Returns the status,
/// 0 or 1. What clients choose is hashed under the keys.
///
/// `WriteFailed` comes where the sink failed in this call, and `NoMemory` where memory could not be had. What was written
/// then is a front of what the script prints.
pub fn play_lines<W: Sink>(
    alloc: Global,
    keys: RandomState,
    script: &[u8],
    sink: &mut W,
) -> Result<u8, LinesFault>
    requires { length script.now ≤ 16777216 }
    ensures meaning { IfOk result (λ status. Appends (W.contents sink.old) (W.contents sink.new) (output_of script.now).text
        × (status ≡ (output_of script.now).status)) }
    ensures prefix { OnErr result (AppendsFront (W.contents sink.old) (W.contents sink.new) (output_of script.now).text) }
    ensures failed { W.failed sink.new ≡ (W.failed sink.old || is_write_failed result) }
{
    let policy = Policy::builtin(alloc)?;
    let mut server = Server::new(alloc, keys, policy)?;
    let mut clients = Vec::new(alloc);
    let mut lines = Pieces::of(script, b'\n');
    let (mut number, mut progress) = (0u64, Progress::Head);
    'playing: while let Some(text) = lines.next_piece() {
        number += 1;
        let line = read_line(alloc, text)?;
        let next = progress.after(&line);
        let mut out = Vec::new(alloc);
        let numbered = NumberedLine {
            number,
            progress,
            line,
        };
        let stops = on_line_and_drain(alloc, &mut server, &mut clients, numbered, &mut out)?;
        progress = next;
        match write_all(sink, out.as_slice()) {
            Err(_) => return Err(LinesFault::WriteFailed),
            Ok(()) => {
                if stops {
                    return Ok(1);
                }
            }
        }
    }
    Ok(0)
}
