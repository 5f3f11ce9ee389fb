// What a Take gave, written.
ghost use Rattle.std.specs.Prelude.{◌≡◌, [], OnOk, drop};
ghost use Rattle.session_plan.specs.pending.Texts.{IsWritten};

use crate::pending::{Owed, write_delivery};
use base::NoMemory;
use std::mem;

/// Writes deliveries in turn, as far as memory allows, and returns how many.
fn write_each(out: &mut Vec<u8>, headers: bool, owed: &Owed) -> usize
    ensures { IsWritten headers out.old.items owed.now.deliveries out.new.items (drop result owed.now.deliveries) }
{
    let _bound = owed.len();
    let mut left = owed.deliveries();
    let mut written = 0;
    while let Some(next) = left.next() {
        if write_delivery(out, headers, &next).is_err() {
            return written;
        }
        written += 1;
    }
    written
}

/// Writes deliveries from the front, as far as memory allows, and returns how many. The buffer is a local meanwhile, since nothing
/// else points to it then. What stands in its place takes no memory.
fn write_some(out: &mut Vec<u8>, headers: bool, owed: &Owed) -> usize
    ensures { IsWritten headers out.old.items owed.now.deliveries out.new.items (drop result owed.now.deliveries) }
{
    let alloc = *out.allocator();
    let mut texts = mem::replace(out, Vec::new(alloc));
    let written = write_each(&mut texts, headers, owed);
    mem::forget(mem::replace(out, texts));
    written
}

/// Writes deliveries from the front. Where memory lacks, `NoMemory`, the rest stays.
pub fn write_front(out: &mut Vec<u8>, headers: bool, owed: &mut Owed) -> Result<(), NoMemory>
    ensures written { IsWritten headers out.old.items owed.old.deliveries out.new.items owed.new.deliveries }
    ensures ok { OnOk result (owed.new.deliveries ≡ []) }
    ensures missed { owed.new.missed ≡ owed.old.missed }
{
    let written = write_some(out, headers, owed);
    owed.drop_many(written);
    if owed.len() == 0 {
        Ok(())
    } else {
        Err(NoMemory)
    }
}
