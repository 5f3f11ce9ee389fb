// The open connections of a script (docs/SCRIPT.md).
ghost use Rattle.std.specs.Prelude.{◌≡◌, ◌++◌, false, None, IfOk, OnOk};
ghost use Rattle.script.specs.Play.{shown_if, printed_by, end_effect, is_pending, enough_takes, pending_effect, takes, IsClientEffect, IsClientEffectIf};

use crate::server::Server;
use crate::sessions::{Conn, Output};
use base::NoMemory;
use lines::script_text::{ClientLine, write_closed, write_full, write_shown};
use std::alloc::Global;

/// An open connection.
pub struct Client {
    /// Where it is by the protocol, and what it keeps of its client's bytes.
    pub conn: Conn,
    /// No drains are made for it.
    pub held: bool,
}

impl Drop for Client {
    fn drop(self) {
        let Self { conn: _, held: _ } = self;
    }
}

/// The line of what a connection was sent, if it was sent anything.
fn write_shown_if(out: &mut Vec<u8>, conn: u64, text: &[u8]) -> Result<(), NoMemory>
    ensures { OnOk result (out.new.items ≡ out.old.items ++ shown_if conn text.now) }
{
    if text.is_empty() {
        return Ok(());
    }
    write_shown(out, conn, text)
}

/// Whether a connection is to be drained: something waits or was missed, or its session is gone.
fn is_pending(waiting: Option<(usize, bool)>) -> bool
    ensures { result ≡ is_pending waiting }
{
    match waiting {
        None => true,
        Some((count, missed)) => missed || 0 < count,
    }
}

/// How many Takes are enough for what waits.
fn enough_takes(waiting: Option<(usize, bool)>) -> usize
    ensures { result ≡ enough_takes waiting }
{
    match waiting {
        None => 1,
        Some((count, _)) => count / 64 + 1,
    }
}

impl Client {
    ghost use Rattle.script.specs.Play.{new_client, drain_effect, client_line_effect};

    /// A connection whose client has sent nothing yet.
    pub fn new(alloc: Global, conn: u64) -> Client
        ensures { result ≡ new_client conn }
    {
        Client {
            conn: Conn::new(alloc, conn),
            held: false,
        }
    }

    /// Drains the connection, unless it is held: Takes of 64 while something is pending. Returns whether the history
    /// is full; if it isn't, nothing is pending then.
    pub fn drain(
        &mut self,
        alloc: Global,
        server: &mut Server,
        out: &mut Vec<u8>,
    ) -> Result<bool, NoMemory>
        ensures effect { IfOk result (λ full. IsClientEffect (drain_effect server.old self.old) out.old.items out.new.items self.new server.new full) }
        ensures drained { IfOk result (λ full. full ≡ false → self.old.held ≡ false → pending_effect server.new self.new ≡ None) }
    {
        if self.held {
            return Ok(false);
        }
        let most = enough_takes(server.waiting(self.conn.number()));
        self.take_all(alloc, server, most, out)
    }

    /// Does what a line says of the connection. Returns whether the history is full.
    pub fn on_client_line(
        &mut self,
        alloc: Global,
        server: &mut Server,
        said: &ClientLine,
        out: &mut Vec<u8>,
    ) -> Result<bool, NoMemory>
        ensures { IfOk result (λ full. IsClientEffect (client_line_effect server.old self.old said.now) out.old.items out.new.items self.new server.new full) }
    {
        match said {
            ClientLine::Sends(bytes) => {
                let output = server.on_bytes(alloc, &mut self.conn, bytes.as_slice())?;
                let full = self.print_output(server, &output, out)?;
                Ok(full)
            }
            ClientLine::Holds => {
                self.held = true;
                Ok(false)
            }
            ClientLine::Frees => {
                self.held = false;
                Ok(false)
            }
            ClientLine::Ends => {
                let full = self.end(server, out)?;
                Ok(full)
            }
        }
    }

    /// Prints what a call of the connection gave, and ends it where it closed. Returns whether the history is full.
    fn print_output(
        &mut self,
        server: &mut Server,
        output: &Output,
        out: &mut Vec<u8>,
    ) -> Result<bool, NoMemory>
        ensures { IfOk result (λ full. IsClientEffect (printed_by self.old server.old output.now.bytes.items output.now.stall output.now.close) out.old.items out.new.items self.new server.new full) }
    {
        let number = self.conn.number();
        write_shown_if(out, number, output.bytes.as_slice())?;
        if output.stall.is_some() {
            write_full(out)?;
            return Ok(true);
        }
        if !output.close {
            return Ok(false);
        }
        write_closed(out, number)?;
        self.end(server, out)
    }

    /// The end of the connection. Returns whether the history is full.
    fn end(&mut self, server: &mut Server, out: &mut Vec<u8>) -> Result<bool, NoMemory>
        ensures { IfOk result (λ full. IsClientEffect (end_effect server.old self.old) out.old.items out.new.items self.new server.new full) }
    {
        let output = server.end(&mut self.conn)?;
        if output.stall.is_some() {
            write_full(out)?;
            return Ok(true);
        }
        Ok(false)
    }

    /// A Take of 64, where one is to be made. Returns whether the history is full, and nothing where none is to be
    /// made.
    fn take_if_pending(
        &mut self,
        alloc: Global,
        server: &mut Server,
        out: &mut Vec<u8>,
    ) -> Result<Option<bool>, NoMemory>
        ensures { IfOk result (λ full. IsClientEffectIf (pending_effect server.old self.old) out.old.items out.new.items self.old self.new server.old server.new full) }
    {
        if !self.conn.stage().is_connected() {
            return Ok(None);
        }
        if !is_pending(server.waiting(self.conn.number())) {
            return Ok(None);
        }
        let output = server.drain(alloc, &mut self.conn, 64)?;
        let full = self.print_output(server, &output, out)?;
        Ok(Some(full))
    }

    /// Takes while something is pending, so many at most. Returns whether the history is full.
    fn take_all(
        &mut self,
        alloc: Global,
        server: &mut Server,
        most: usize,
        out: &mut Vec<u8>,
    ) -> Result<bool, NoMemory>
        ensures { IfOk result (λ full. IsClientEffect (takes most server.old self.old) out.old.items out.new.items self.new server.new full) }
    {
        'taking: for _ in 0..most {
            match self.take_if_pending(alloc, server, out)? {
                None => return Ok(false),
                Some(full) => {
                    if full {
                        return Ok(true);
                    }
                }
            }
        }
        Ok(false)
    }
}
