ghost use Rattle.std.specs.Cmp.{partial_equiv_from_equiv};
ghost use Rattle.subjects.specs.Equal.{same_subject, same_subject-equiv, hashed, hashed-alike};

use crate::tokens::tokens_in;
use crate::{SubjectError, SubjectRef, faults};
use base::{Copying, NoMemory, Pieces, SharedBytes};
use std::alloc::Global;
use std::hash::{Hash, Hasher};
use std::marker::Model;

/// A concrete subject of at most 512 tokens, as a message has it. A clause sees its tokens.
#[derive(Debug)]
pub struct Subject {
    text: SharedBytes,
}

impl Drop for Subject {
    #[inline(always)]
    fn drop(self) {
        let Self { text: _ } = self;
    }
}

impl Model for Subject {
    ghost use Rattle.std.specs.Prelude.{List, ℕ};

    ghost Value = { List (List ℕ) };

    ghost use Rattle.subjects.specs.Subject.{tokens_of, IsSubject};

    ghost view = { λ s. tokens_of s.text };

    ghost invariant = { λ s. IsSubject (tokens_of s.text) };
}

impl Subject {
    ghost use Rattle.std.specs.Prelude.{◌≡◌, IfOk};
    ghost use Rattle.subjects.specs.Subject.{text_of, tokens_of, IsSubject};
    ghost use Rattle.subjects.specs.Fault.{subject_fault, IsParse, AcceptsExactly};

    /// The subject of a text. Exactly the texts whose tokens are a subject are accepted, where memory allows. Else
    /// the text's first fault, in the order of `SubjectError`; `NoMemory` is of a text without fault.
    pub fn parse(alloc: Global, text: &[u8]) -> Result<Subject, SubjectError>
        ensures tokens { IsParse text.now (subject_fault text.now) result }
        ensures grammar { AcceptsExactly (IsSubject (tokens_of text.now)) result }
    {
        match faults::subject_fault(text) {
            Some(fault) => Err(fault),
            None => Ok(Subject {
                text: SharedBytes::copy_from_slice(alloc, text)?,
            }),
        }
    }

    /// The subject of a text that is known to be one. The text isn't copied. `NoMemory` where memory could not be had, or
    /// the text has 2^32 bytes or more.
    pub fn from_valid(alloc: Global, text: Vec<u8>) -> Result<Subject, NoMemory>
        requires { IsSubject (tokens_of text.items) }
        ensures { IfOk result (λ subject. subject ≡ tokens_of text.items) }
    {
        Ok(Subject {
            text: SharedBytes::from_vec(alloc, text)?,
        })
    }

    /// The text that the subject was parsed from.
    pub fn bytes(&self) -> &[u8]
        ensures { result.now ≡ text_of self.now }
    {
        self.text.as_slice()
    }

    /// The subject, whose text stands here.
    pub fn lend(&self) -> SubjectRef<'_>
        ensures { result ≡ self.now }
    {
        SubjectRef::from_valid(self.text.as_slice())
    }

    /// The tokens in order.
    pub fn tokens(&self) -> Pieces<'_>
        ensures tokens { result ≡ self.now }
        ensures grammar { IsSubject self.now }
    {
        tokens_in(self.text.as_slice())
    }
}

impl Copying for Subject {
    fn copy(&self, alloc: Global) -> Result<Subject, NoMemory> {
        Ok(Subject {
            text: self.text.again()?,
        })
    }
}

impl PartialEq for Subject {
    ghost eq = { same_subject };

    ghost laws = { partial_equiv_from_equiv same_subject-equiv };

    fn eq(&self, other: &Self) -> bool {
        self.text.as_slice() == other.text.as_slice()
    }
}

impl Eq for Subject {
    ghost laws = { same_subject-equiv };
}

impl Hash for Subject {
    ghost hash_input = { hashed };

    ghost respects_eq = { hashed-alike };

    fn hash<H: Hasher>(&self, state: &mut H) {
        self.bytes().hash(state);
    }
}
