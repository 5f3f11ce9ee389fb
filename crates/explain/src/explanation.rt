ghost use Rattle.std.specs.Prelude.{◌≡◌, ◌++◌, flat_map, OnOk};
ghost use Rattle.std.specs.Fmt.{decimal};
ghost use Rattle.explain.specs.Lines.{entry_words, uncovered_line, verdict_words};

use base::{Items, NoMemory};
use itoa::Buffer;
use permissions::{By, Verdict};
use std::alloc::Global;

/// A verdict with its reason.
#[derive(Debug, Drop)]
pub struct Explanation {
    /// The verdict.
    pub verdict: Verdict,
    /// The text of the entry that the verdict names, if it names one.
    pub entry: Option<Items<u8>>,
    /// Of `NoAllow`, the allow entries that were looked at, each with a subject that was asked for and isn't the entry's.
    pub outside: Items<Uncovered>,
}

/// An allow entry that hasn't all that was asked for.
#[derive(Debug, Drop)]
pub struct Uncovered {
    /// The entry's index in the allow list.
    pub index: usize,
    /// The entry's text.
    pub entry: Items<u8>,
    /// The text of a subject that was asked for and isn't the entry's.
    pub subject: Items<u8>,
}

impl Explanation {
    ghost use Rattle.std.specs.Prelude.{◌≡◌, IfOk};
    ghost use Rattle.explain.specs.Lines.{explanation_text};

    /// Returns the lines that tell it: the verdict with the entry that it names, then a line `outside` for each allow entry
    /// of which a subject is shown. `NoMemory` where memory could not be had.
    pub fn lines(&self, alloc: Global) -> Result<Vec<u8>, NoMemory>
        ensures { IfOk result (λ lines. lines.items ≡ explanation_text self.now) }
    {
        let mut out = Vec::new(alloc);
        write_verdict(&mut out, self.verdict)?;
        write_entry(&mut out, &self.entry)?;
        out.push(b'\n')?;
        write_outside(&mut out, self.outside.as_slice())?;
        Ok(out)
    }
}

/// Appends what a verdict says, without the entry's text. `NoMemory` where memory could not be had.
pub fn write_verdict(out: &mut Vec<u8>, verdict: Verdict) -> Result<(), NoMemory>
    ensures { OnOk result (out.new.items ≡ out.old.items ++ verdict_words verdict) }
{
    match verdict {
        Verdict::Allowed(by) => match by {
            By::All => Ok(out.extend_from_slice(b"allowed all")?),
            By::Index(index) => write_counted(out, b"allowed ", index as u64),
            By::Grant => Ok(out.extend_from_slice(b"allowed by a reply grant")?),
        },
        Verdict::DeniedBy(index) => write_counted(out, b"denied ", index as u64),
        Verdict::NoAllow => Ok(out.extend_from_slice(b"no allow")?),
        Verdict::NoQueueAllow(index) => write_counted(out, b"no queue allow ", index as u64),
    }
}

/// Appends words and a number.
pub(crate) fn write_counted(out: &mut Vec<u8>, words: &[u8], number: u64) -> Result<(), NoMemory>
    ensures { OnOk result (out.new.items ≡ out.old.items ++ (words.now ++ decimal number)) }
{
    out.extend_from_slice(words)?;
    let mut digits = Buffer::new();
    out.extend_from_slice(digits.format(number).as_bytes())?;
    Ok(())
}

/// Appends the text of the entry that decided behind a space, if there is one.
fn write_entry(out: &mut Vec<u8>, entry: &Option<Items<u8>>) -> Result<(), NoMemory>
    ensures { OnOk result (out.new.items ≡ out.old.items ++ entry_words entry.now) }
{
    match entry {
        None => Ok(()),
        Some(text) => {
            out.push(b' ')?;
            out.extend_from_slice(text.as_slice())?;
            Ok(())
        }
    }
}

/// Appends a line for each of these allow entries.
fn write_outside(out: &mut Vec<u8>, all: &[Uncovered]) -> Result<(), NoMemory>
    ensures { OnOk result (out.new.items ≡ out.old.items ++ flat_map uncovered_line all.now) }
{
    for one in all {
        write_uncovered(out, one)?;
    }
    Ok(())
}

/// Appends the line of an allow entry.
fn write_uncovered(out: &mut Vec<u8>, one: &Uncovered) -> Result<(), NoMemory>
    ensures { OnOk result (out.new.items ≡ out.old.items ++ uncovered_line one.now) }
{
    write_counted(out, b"outside ", one.index as u64)?;
    out.push(b' ')?;
    out.extend_from_slice(one.entry.as_slice())?;
    out.push(b' ')?;
    out.extend_from_slice(one.subject.as_slice())?;
    out.push(b'\n')?;
    Ok(())
}
