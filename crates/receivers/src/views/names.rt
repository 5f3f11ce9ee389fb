//! What a message is called where it is seen.
ghost use Rattle.std.specs.Prelude.{◌≡◌, IfOk};

use base::{Copying, NoMemory, Shared};
use events::{Names, Said};
use std::alloc::Global;
use subjects::Subject;

/// Returns the names of a view: its subject, and what is said there as the reply. `NoMemory` where memory could not be had.
pub fn names_of(alloc: Global, subject: &Subject, reply: Said) -> Result<Shared<Names>, NoMemory>
    ensures { IfOk result (λ names. names ≡ record { subject = subject.now; reply = reply }) }
{
    let subject = subject.copy(alloc)?;
    let names = Names { subject, reply };
    let shared = Shared::new(alloc, names)?;
    Ok(shared)
}
