use crate::bytewise;
use crate::tokens::tokens_in;
use base::Pieces;
use std::marker::Model;

/// A subject whose text stands elsewhere, as in a message that was read. A clause sees its tokens.
#[derive(Debug, Drop)]
pub struct SubjectRef<'a> {
    text: &'a [u8],
}

impl<'a> Model for SubjectRef<'a> {
    ghost use Rattle.std.specs.Prelude.{List, ℕ};

    ghost Value = { List (List ℕ) };

    ghost use Rattle.subjects.specs.Subject.{tokens_of, IsSubject};

    ghost view = { λ s. tokens_of s.text.now };

    ghost invariant = { λ s. IsSubject (tokens_of s.text.now) };
}

impl<'a> SubjectRef<'a> {
    ghost use Rattle.std.specs.Prelude.{◌≡◌, ◌↔◌, IsSome};
    ghost use Rattle.subjects.specs.Subject.{text_of, tokens_of, IsSubject};
    ghost use Rattle.subjects.specs.Fault.{subject_if};

    /// The subject of a text, if it is one. It takes no memory.
    pub fn of(text: &'a [u8]) -> Option<SubjectRef<'a>>
        ensures tokens { result ≡ subject_if text.now }
        ensures grammar { IsSome result ↔ IsSubject (tokens_of text.now) }
    {
        if bytewise::is_subject(text) {
            Some(SubjectRef { text })
        } else {
            None
        }
    }

    /// The subject of a text that is known to be one.
    #[inline(always)]
    pub fn from_valid(text: &'a [u8]) -> SubjectRef<'a>
        requires { IsSubject (tokens_of text.now) }
        ensures { result ≡ tokens_of text.now }
    {
        SubjectRef { text }
    }

    /// The text that the subject was parsed from.
    pub fn bytes(&self) -> &'a [u8]
        ensures { result.now ≡ text_of self.now }
    {
        self.text
    }

    /// The tokens in order.
    pub fn tokens(&self) -> Pieces<'a>
        ensures tokens { result ≡ self.now }
        ensures grammar { IsSubject self.now }
    {
        tokens_in(self.text)
    }
}
