ghost use Rattle.std.specs.Prelude.{◌≡◌, IfOk};
ghost use Rattle.subjects.specs.Fault.{pattern_if, subject_if};
ghost use Rattle.subjects.specs.texts.Found.{IsFound};

use crate::{Pattern, Subject, SubjectError};
use base::NoMemory;
use std::alloc::Global;

/// The subject of a text, if it is one, with bytes of its own. `NoMemory` where memory could not be had.
pub fn subject_if(alloc: Global, text: &[u8]) -> Result<Option<Subject>, NoMemory>
    ensures { IfOk result (λ subject. subject ≡ subject_if text.now) }
{
    Ok(found(Subject::parse(alloc, text))?)
}

/// The pattern of a text, if it is one, with bytes of its own. `NoMemory` where memory could not be had.
pub fn pattern_if(alloc: Global, text: &[u8]) -> Result<Option<Pattern>, NoMemory>
    ensures { IfOk result (λ pattern. pattern ≡ pattern_if text.now) }
{
    Ok(found(Pattern::parse(alloc, text))?)
}

/// What a parser found, if the text has no fault. `NoMemory` where memory could not be had.
fn found<T>(parsed: Result<T, SubjectError>) -> Result<Option<T>, NoMemory>
    ensures { IfOk result (IsFound parsed) }
{
    match parsed {
        Ok(value) => Ok(Some(value)),
        Err(error) => {
            if error.is_no_memory() {
                Err(NoMemory)
            } else {
                Ok(None)
            }
        }
    }
}
