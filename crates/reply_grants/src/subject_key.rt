ghost use Rattle.subjects.specs.Equal.{same_subject};
ghost use Rattle.subjects.specs.Subject.{tokens_of};
ghost use Rattle.reply_grants.specs.Looked.{alike, congruent};

use indexmap::Equivalent;
use subjects::{Subject, SubjectRef};

/// The text of a subject that is looked up. It is hashed as the subject that has the same text.
#[derive(Clone, Copy, PartialEq, Eq, Hash)]
pub(crate) struct SubjectKey<'a> {
    text: &'a [u8],
}

impl<'a> SubjectKey<'a> {
    ghost use Rattle.std.specs.Prelude.{◌≡◌};

    /// The key that looks a subject up.
    #[inline(always)]
    pub fn of(subject: &SubjectRef<'a>) -> SubjectKey<'a>
        ensures { tokens_of result.text.now ≡ subject.now }
    {
        let _known = subject.tokens();
        SubjectKey {
            text: subject.bytes(),
        }
    }
}

impl<'a> Equivalent<Subject> for SubjectKey<'a> {
    ghost equivalent = { λ q k. same_subject (tokens_of q.text.now) k };

    ghost respects_hash = { λ q k. alike q.text.now k };

    ghost respects_eq = { λ q x y. congruent q.text.now x y };

    fn equivalent(&self, key: &Subject) -> bool {
        let _known = key.tokens();
        self.text == key.bytes()
    }
}
