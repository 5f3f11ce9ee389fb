// The policies of a script: the one that it begins with, and those that come into force later (docs/SCRIPT.md).
ghost use Rattle.std.specs.Prelude.{◌≡◌, ◌++◌, List, codes, false, IfOk, OnOk};
ghost use Rattle.policy_text.specs.reload.Fault.{fault_line, is_memory};
ghost use Rattle.policy_text.specs.reload.Reload.{prepared};
ghost use Rattle.script.specs.declared.client.Client.{Client};
ghost use Rattle.script.specs.Play.{policy_effect, policy_line_effect, reload_effect, reload_told, IsEffect};
ghost use Rattle.script.specs.Server.{installed};

use crate::server::Server;
use base::NoMemory;
use hub::CompiledPolicy;
use lines::reload_lines::write_reload;
use lines::script_text::{Progress, write_full, write_refused};
use policy_text::reload::{ReloadFault, prepare, read_valid_policy};
use std::alloc::Global;

/// Sets a policy in the place of the built-in one, or prints the line of its fault.
fn set_policy(
    alloc: Global,
    server: &mut Server,
    text: &[u8],
    out: &mut Vec<u8>,
) -> Result<bool, NoMemory>
    ensures { (clients : List Client) → IfOk result (λ stops. IsEffect (policy_effect (prepared text.now) server.old clients) out.old.items out.new.items clients server.new stops) }
{
    match read_valid_policy(alloc, text) {
        Ok(policy) => {
            server.set_policy(alloc, policy)?;
            Ok(false)
        }
        Err(fault) => {
            write_fault(alloc, out, &fault)?;
            Ok(true)
        }
    }
}

/// A policy, which comes before all lines but caps.
pub fn on_policy(
    alloc: Global,
    server: &mut Server,
    number: u64,
    progress: Progress,
    text: &[u8],
    out: &mut Vec<u8>,
) -> Result<bool, NoMemory>
    ensures { (clients : List Client) → IfOk result (λ stops. IsEffect (policy_line_effect number progress text.now server.old clients) out.old.items out.new.items clients server.new stops) }
{
    match progress {
        Progress::Head => {
            let stops = set_policy(alloc, server, text, out)?;
            Ok(stops)
        }
        Progress::Capped => {
            let stops = set_policy(alloc, server, text, out)?;
            Ok(stops)
        }
        Progress::Body => {
            write_refused(out, number)?;
            Ok(true)
        }
    }
}

/// Another policy comes into force, or the line of the text's fault is printed and nothing changes. Returns whether
/// the history is full.
pub fn on_reload(
    alloc: Global,
    server: &mut Server,
    text: &[u8],
    out: &mut Vec<u8>,
) -> Result<bool, NoMemory>
    ensures { (clients : List Client) → IfOk result (λ stops. IsEffect (reload_effect (prepared text.now) server.old clients) out.old.items out.new.items clients server.new stops) }
{
    match prepare(alloc, text) {
        Ok(policy) => {
            let full = install(server, policy, out)?;
            Ok(full)
        }
        Err(fault) => {
            write_fault(alloc, out, &fault)?;
            Ok(false)
        }
    }
}

/// A policy comes into force, and what the hub tells of it is printed. Returns whether the history is full.
fn install(server: &mut Server, policy: CompiledPolicy, out: &mut Vec<u8>) -> Result<bool, NoMemory>
    ensures { (clients : List Client) → IfOk result (λ stops. IsEffect (reload_told (installed policy server.old) clients) out.old.items out.new.items clients server.new stops) }
{
    match server.install(policy)? {
        Some(answer) => {
            write_reload(out, answer.get())?;
            Ok(false)
        }
        None => {
            write_full(out)?;
            Ok(true)
        }
    }
}

/// Appends the line of a fault of a policy. `NoMemory` comes also where that is the fault, which says nothing of the
/// policy.
pub fn write_fault(alloc: Global, out: &mut Vec<u8>, fault: &ReloadFault) -> Result<(), NoMemory>
    ensures line { OnOk result (out.new.items ≡ out.old.items ++ (fault_line fault.now ++ codes "\n")) }
    ensures fault { OnOk result (is_memory fault.now ≡ false) }
{
    if fault.is_memory() {
        return Err(NoMemory);
    }
    let line = fault.line(alloc)?;
    out.extend_from_slice(line.as_slice())?;
    out.extend_from_slice(b"\n")?;
    Ok(())
}
