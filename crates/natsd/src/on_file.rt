// A task on the policy of a file, in place of standard input.
ghost use Rattle.std.specs.Prelude.{◌≡◌, IfSome, None};

use crate::notes::{tell_error, tell_of_task};
use crate::policy_input::PolicyInput;
use command_line::Task;
use devices::Sink;
use std::alloc::AllocGlobal;
use std::fs::{File, Files};
use std::hash::RandomState;
use tasks::run_and_tell;

/// Does a task that reads a file, and returns its status. Where the file can't be read, a line on the error sink tells
/// why, and the status is 1. It is also told there what is to be known of the policy's text.
pub(crate) fn run_on_file<R: Files + AllocGlobal, W: Sink, E: Sink>(
    rt: &R,
    keys: RandomState,
    task: &Task,
    path: &str,
    sink: &mut W,
    errors: &mut E,
) -> u8 {
    let alloc = rt.alloc();
    let Some(mut input) = open_input(rt, path, errors) else {
        return 1;
    };
    let status = run_and_tell(alloc, keys, task, &mut input, sink, errors);
    if let Some(error) = input.failed() {
        tell_error(alloc, path, error, errors);
        return status;
    }
    tell_of_task(alloc, task, &input, status, errors)
}

/// Opens a file as an input, or tells on the error sink why it can't be.
pub fn open_input<R: Files + AllocGlobal, E: Sink>(
    rt: &R,
    path: &str,
    errors: &mut E,
) -> Option<PolicyInput<R::File>>
    ensures { IfSome result (λ input. (input.reads ≡ 0) × (input.text ≡ None)) }
{
    match File::open(rt, path) {
        Ok(file) => Some(PolicyInput::new(rt.alloc(), file)),
        Err(error) => {
            tell_error(rt.alloc(), path, &error, errors);
            None
        }
    }
}
