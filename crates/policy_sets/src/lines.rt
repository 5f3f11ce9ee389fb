//! Sets as they are printed, one a line.
ghost use Rattle.std.specs.Prelude.{◌≡◌, ◌++◌, ◌==◌, OnOk, IfOk, codes, if◌then◌else◌};
ghost use Rattle.policy_sets.specs.Lines.{lines_of, set_line};

use base::{Items, NoMemory};
use bytes::Bytes;
use std::alloc::Global;

/// Returns the lines of sets, each with its LF: the names of its accounts, separated by one space. `NoMemory` where memory
/// could not be had.
pub fn lines_of(alloc: Global, sets: &[Items<Bytes>]) -> Result<Items<u8>, NoMemory>
    ensures { IfOk result (λ lines. lines ≡ lines_of sets.now) }
{
    let mut lines = Vec::new(alloc);
    for set in sets {
        add_line(&mut lines, set.as_slice())?;
    }
    Ok(Items::from_vec(lines))
}

/// Appends the line of a set.
fn add_line(line: &mut Vec<u8>, names: &[Bytes]) -> Result<(), NoMemory>
    ensures { OnOk result (line.new.items ≡ line.old.items ++ set_line names.now) }
{
    for (place, name) in names.iter().enumerate() {
        add_name(line, place, name)?;
    }
    line.extend_from_slice(b"\n")?;
    Ok(())
}

/// Appends a name, behind a space unless it is the first.
fn add_name(line: &mut Vec<u8>, place: usize, name: &Bytes) -> Result<(), NoMemory>
    ensures { OnOk result (line.new.items ≡ line.old.items ++ (if place == 0 then name.now else codes " " ++ name.now)) }
{
    if place == 0 {
        line.extend_from_slice(name.as_slice())?;
        Ok(())
    } else {
        line.extend_from_slice(b" ")?;
        line.extend_from_slice(name.as_slice())?;
        Ok(())
    }
}
