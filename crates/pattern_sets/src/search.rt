//! The search for a question on which two judges differ.
//!
//! A pattern names at each place one token or every token, and there are always tokens that no pattern of a list names.
//! So where some subject is in one set and not in another, one of a few *samples* is: what two patterns have in common,
//! with such a token in the place of each `*`. A search asks these, and no other.
ghost use Rattle.std.specs.Prelude.{◌≡◌, false, map, take, true, IfOk, IfSome, None, Some, is_some};
ghost use Rattle.std.specs.Option.{option_map};
ghost use Rattle.subjects.specs.Subject.{text_of, tokens_of};
ghost use Rattle.pattern_sets.specs.Asking.{part_view, reason_part, subject_by};
ghost use Rattle.pattern_sets.specs.Laws.{sample_of};

use crate::part::{Length, Part, part_of};
use crate::sample::sample_of;
use base::NoMemory;
use std::alloc::Global;
use subjects::texts::subject_if;
use subjects::{Pattern, Subject};

/// Two judges of questions. Each question has a subject, or a pattern that ends in `>`, and perhaps a queue.
pub trait Judges {
    ghost use Rattle.std.specs.Prelude.{◌≡◌, Bool, IfOk, List, Option};
    ghost use Rattle.std.specs.Option.{option_copied};
    ghost use Rattle.subjects.specs.Subject.{Token, tokens_of};

    ghost differs: { Self → List Token → Option (List Token) → Bool };

    /// Whether the first of them allows what a text with a queue or without one asks for, and the second doesn't. A
    /// text that is no question is refused by both. `NoMemory` where memory could not be had.
    fn differ(&self, alloc: Global, text: &[u8], queue: Option<&Subject>) -> Result<bool, NoMemory>
        ensures { IfOk result (λ d. d ≡ differs self.now (tokens_of text.now) (option_copied queue.entry)) };
}

/// What lets a judge allow or refuse a question: its subject is one of a pattern, and its queue one of another.
#[derive(Clone, Copy, Debug)]
pub struct Reason<'a> {
    pub subject: &'a Pattern,
    pub queue: &'a Pattern,
}

/// A reason by which the first judge allows.
#[derive(Clone, Copy, Debug)]
pub struct Allowing<'a> {
    pub reason: Reason<'a>,
    /// How many of the reasons to refuse, from the first on, may be those by which the second judge refuses what this
    /// one allows.
    pub reach: usize,
}

/// The reasons of two judges, and how long the questions are that are asked.
#[derive(Drop)]
pub struct Search<'a> {
    /// The reasons by which the first allows.
    pub allowing: Vec<Allowing<'a>>,
    /// The reasons by which the second refuses.
    pub refusing: Vec<Reason<'a>>,
    /// A token that no reason has.
    pub token: &'a [u8],
    /// The most tokens of a subject that are asked about.
    pub most: usize,
    /// The most tokens of a queue that are asked about. Without it no queue is.
    pub most_of_queues: Option<usize>,
}

/// A question.
#[derive(Debug, Drop)]
pub struct Asked {
    /// The text of its subject, or of a pattern that ends in `>`.
    pub subject: Vec<u8>,
    /// Its queue, or none.
    pub queue: Option<Subject>,
}

impl<'a> Search<'a> {
    ghost use Rattle.std.specs.Prelude.{◌≡◌, false, length, map, true, IfOk, IfSome, Some, is_some};
    ghost use Rattle.std.specs.Option.{option_map};
    ghost use Rattle.subjects.specs.Subject.{text_of, tokens_of};
    ghost use Rattle.pattern_sets.specs.Asking.{common, part_view, reason_part, subject_by, AllAlike, AreAlikeParts, AreQueuesAlike, IsAlike, IsAlikePart, IsAlikeWithin, IsExact, IsFoundAt, IsQueueAlike};
    ghost use Rattle.pattern_sets.specs.Judging.{IsFound};

    /// Returns the first sample that the first judge allows and the second refuses: one with the fewest tokens, and
    /// among those the first by the order of the reasons. `None` where they judge all samples alike, of subjects or,
    /// with a tail, of patterns that end in `>`. `NoMemory` where memory could not be had.
    pub fn first<J: Judges>(
        &self,
        alloc: Global,
        has_tail: bool,
        judges: &J,
    ) -> Result<Option<Asked>, NoMemory>
        ensures found { IfOk result (IsFound (J.differs judges.now)) }
        ensures exact { IfOk result (IsExact (J.differs judges.now) self.now has_tail) }
    {
        for before in 0..self.most {
            let tokens = before + 1;
            let found = self.first_of(alloc, Length { tokens, has_tail }, judges)?;
            if found.is_some() {
                return Ok(found);
            }
        }
        Ok(None)
    }

    /// Returns the first sample of this length.
    fn first_of<J: Judges>(
        &self,
        alloc: Global,
        length: Length,
        judges: &J,
    ) -> Result<Option<Asked>, NoMemory>
        ensures found { IfOk result (λ found. IfSome found (IsFoundAt (J.differs judges.now) self.now.token.now length.tokens)) }
        ensures alike { IfOk result (λ found. is_some found ≡ false → AllAlike (J.differs judges.now) self.now length.has_tail length.tokens) }
    {
        let refusing = self.refusing.as_slice();
        let allowing = self.allowing.as_slice();
        let parts = parts_of(alloc, refusing, length)?;
        let others = parts.as_slice();
        for one in allowing {
            let found = self.first_by(alloc, one, others, length, judges)?;
            if found.is_some() {
                return Ok(found);
            }
        }
        Ok(None)
    }

    /// Returns the first sample of this length that a reason to allow has with the parts that it reaches.
    fn first_by<J: Judges>(
        &self,
        alloc: Global,
        one: &Allowing<'_>,
        others: &[Option<Part<'_>>],
        length: Length,
        judges: &J,
    ) -> Result<Option<Asked>, NoMemory>
        requires { map (option_map part_view) others.now ≡ map (reason_part length.has_tail length.tokens) self.now.refusing.items }
        ensures found { IfOk result (λ found. IfSome found (IsFoundAt (J.differs judges.now) self.now.token.now length.tokens)) }
        ensures alike { IfOk result (λ found. is_some found ≡ false → IsAlikeWithin (J.differs judges.now) self.now length.has_tail length.tokens one.now) }
    {
        let reached = front_of(others, one.reach);
        let part = part_with(alloc, &one.reason, length)?;
        match part {
            None => Ok(None),
            Some(own) => {
                let found = self.first_with(alloc, &own, reached, judges)?;
                Ok(found)
            }
        }
    }

    /// Returns the first sample that a part has with one of others.
    fn first_with<J: Judges>(
        &self,
        alloc: Global,
        one: &Part<'_>,
        others: &[Option<Part<'_>>],
        judges: &J,
    ) -> Result<Option<Asked>, NoMemory>
        ensures found { IfOk result (λ found. IfSome found (IsFoundAt (J.differs judges.now) self.now.token.now (length (part_view one.now).0))) }
        ensures alike { IfOk result (λ found. is_some found ≡ false → AreAlikeParts (J.differs judges.now) self.now (part_view one.now) others.now) }
    {
        for other in others {
            let found = self.first_of_two(alloc, one, other, judges)?;
            if found.is_some() {
                return Ok(found);
            }
        }
        Ok(None)
    }

    /// Returns the sample of two parts, if there is one that is judged so, with or without a queue.
    fn first_of_two<J: Judges>(
        &self,
        alloc: Global,
        one: &Part<'_>,
        other: &Option<Part<'_>>,
        judges: &J,
    ) -> Result<Option<Asked>, NoMemory>
        ensures found { IfOk result (λ found. IfSome found (IsFoundAt (J.differs judges.now) self.now.token.now (length (part_view one.now).0))) }
        ensures alike { IfOk result (λ found. is_some found ≡ false → IsAlikePart (J.differs judges.now) self.now (part_view one.now) (option_map part_view other.now)) }
    {
        match other {
            None => Ok(None),
            Some(other) => {
                let found = self.sample_asked(alloc, one, other, judges)?;
                Ok(found)
            }
        }
    }

    /// Returns the sample of two parts, if there is one that is judged so.
    fn sample_asked<J: Judges>(
        &self,
        alloc: Global,
        one: &Part<'_>,
        other: &Part<'_>,
        judges: &J,
    ) -> Result<Option<Asked>, NoMemory>
        ensures found { IfOk result (λ found. IfSome found (IsFoundAt (J.differs judges.now) self.now.token.now (length (part_view one.now).0))) }
        ensures alike { IfOk result (λ found. is_some found ≡ false → IsAlikePart (J.differs judges.now) self.now (part_view one.now) (Some (part_view other.now))) }
    {
        let some = one.tokens.as_slice();
        let others = other.tokens.as_slice();
        let sample = sample_of(alloc, some, others, self.token)?;
        match sample {
            None => Ok(None),
            Some(text) => {
                let bytes = text.as_slice();
                let queue = self.asked(alloc, bytes, (one.queue, other.queue), judges)?;
                let found = question_of(text, queue);
                Ok(found)
            }
        }
    }

    /// Asks a text, with each sample of two patterns of queues if queues are asked. Returns the queue with which it is
    /// judged so, or that it is without one.
    fn asked<J: Judges>(
        &self,
        alloc: Global,
        text: &[u8],
        queues: (&Pattern, &Pattern),
        judges: &J,
    ) -> Result<Option<Option<Subject>>, NoMemory>
        ensures found { IfOk result (λ found. IfSome found (λ queue. J.differs judges.now (tokens_of text.now) queue ≡ true)) }
        ensures alike { IfOk result (λ found. is_some found ≡ false → IsAlike (J.differs judges.now) self.now.token.now self.now.most_of_queues queues.entry.0.now queues.entry.1.now text.now) }
    {
        match self.most_of_queues {
            None => {
                let found = asked_alone(alloc, text, judges)?;
                Ok(found)
            }
            Some(most) => {
                let queue = self.asked_with(alloc, text, queues, most, judges)?;
                let found = with_queue(queue);
                Ok(found)
            }
        }
    }

    /// Asks a text with each sample of two patterns of queues, up to so many tokens.
    fn asked_with<J: Judges>(
        &self,
        alloc: Global,
        text: &[u8],
        queues: (&Pattern, &Pattern),
        most: usize,
        judges: &J,
    ) -> Result<Option<Subject>, NoMemory>
        ensures found { IfOk result (λ found. IfSome found (λ queue. J.differs judges.now (tokens_of text.now) (Some queue) ≡ true)) }
        ensures alike { IfOk result (λ found. is_some found ≡ false → AreQueuesAlike (J.differs judges.now) self.now.token.now most queues.entry.0.now queues.entry.1.now text.now) }
    {
        for before in 0..most {
            let queue = self.queue_asked(alloc, text, queues, before + 1, judges)?;
            if queue.is_some() {
                return Ok(queue);
            }
        }
        Ok(None)
    }

    /// Returns the queue of so many tokens that is the sample of two patterns, if the text is judged so with it.
    fn queue_asked<J: Judges>(
        &self,
        alloc: Global,
        text: &[u8],
        queues: (&Pattern, &Pattern),
        tokens: usize,
        judges: &J,
    ) -> Result<Option<Subject>, NoMemory>
        ensures found { IfOk result (λ found. IfSome found (λ queue. J.differs judges.now (tokens_of text.now) (Some queue) ≡ true)) }
        ensures alike { IfOk result (λ found. is_some found ≡ false → IsQueueAlike (J.differs judges.now) self.now.token.now tokens queues.entry.0.now queues.entry.1.now text.now) }
    {
        let found = self.queue_of(alloc, queues, tokens)?;
        match found {
            None => Ok(None),
            Some(queue) => {
                let asked = asked_in(alloc, text, queue, judges)?;
                Ok(asked)
            }
        }
    }

    /// Returns the queue of so many tokens that is the sample of two patterns, if there is one.
    fn queue_of(
        &self,
        alloc: Global,
        queues: (&Pattern, &Pattern),
        tokens: usize,
    ) -> Result<Option<Subject>, NoMemory>
        ensures { IfOk result (λ found. found ≡ subject_by (option_map text_of (common self.now.token.now false tokens queues.entry.0.now queues.entry.1.now))) }
    {
        let length = Length {
            tokens,
            has_tail: false,
        };
        let one = part_of(alloc, queues.0, length)?;
        let other = part_of(alloc, queues.1, length)?;
        let text = sample_if(alloc, one, other, self.token)?;
        let queue = queue_by(alloc, text)?;
        Ok(queue)
    }
}

/// Asks a text without a queue.
fn asked_alone<J: Judges>(
    alloc: Global,
    text: &[u8],
    judges: &J,
) -> Result<Option<Option<Subject>>, NoMemory>
    ensures found { IfOk result (λ found. IfSome found (λ queue. J.differs judges.now (tokens_of text.now) queue ≡ true)) }
    ensures alike { IfOk result (λ found. is_some found ≡ false → J.differs judges.now (tokens_of text.now) None ≡ false) }
{
    let differs = judges.differ(alloc, text, None)?;
    if differs { Ok(Some(None)) } else { Ok(None) }
}

/// Asks a text with a queue, which is returned if it is judged so.
fn asked_in<J: Judges>(
    alloc: Global,
    text: &[u8],
    queue: Subject,
    judges: &J,
) -> Result<Option<Subject>, NoMemory>
    ensures found { IfOk result (λ found. IfSome found (λ queue. J.differs judges.now (tokens_of text.now) (Some queue) ≡ true)) }
    ensures alike { IfOk result (λ found. is_some found ≡ false → J.differs judges.now (tokens_of text.now) (Some queue) ≡ false) }
{
    let differs = judges.differ(alloc, text, Some(&queue))?;
    if differs { Ok(Some(queue)) } else { Ok(None) }
}

/// A question's queue, from the queue that was found.
fn with_queue(queue: Option<Subject>) -> Option<Option<Subject>>
    ensures { result ≡ option_map (λ q. Some q) queue }
{
    match queue {
        None => None,
        Some(queue) => Some(Some(queue)),
    }
}

/// The question with this text, if a queue was found, or that it is asked without one.
fn question_of(text: Vec<u8>, queue: Option<Option<Subject>>) -> Option<Asked>
    ensures none { is_some result ≡ is_some queue }
    ensures same { IfSome result (λ asked. (queue ≡ Some asked.queue) × (asked.subject.items ≡ text.items)) }
{
    match queue {
        None => None,
        Some(queue) => Some(Asked {
            subject: text,
            queue,
        }),
    }
}

/// Returns the text of the sample of two parts, if there are both and they have something in common.
fn sample_if(
    alloc: Global,
    one: Option<Vec<&[u8]>>,
    other: Option<Vec<&[u8]>>,
    fresh: &[u8],
) -> Result<Option<Vec<u8>>, NoMemory>
    ensures { IfOk result (λ found. option_map (λ text. text.items) found ≡ option_map text_of (sample_of fresh.now (option_map (λ ts. map (λ t. t.now) ts.items) one.entry) (option_map (λ ts. map (λ t. t.now) ts.items) other.entry))) }
{
    match one {
        None => Ok(None),
        Some(one) => {
            let found = sample_beside(alloc, one.as_slice(), other, fresh)?;
            Ok(found)
        }
    }
}

/// Returns the text of the sample of a part and another, if there is that one and they have something in common.
fn sample_beside(
    alloc: Global,
    one: &[&[u8]],
    other: Option<Vec<&[u8]>>,
    fresh: &[u8],
) -> Result<Option<Vec<u8>>, NoMemory>
    ensures { IfOk result (λ found. option_map (λ text. text.items) found ≡ option_map text_of (sample_of fresh.now (Some (map (λ t. t.now) one.now)) (option_map (λ ts. map (λ t. t.now) ts.items) other.entry))) }
{
    match other {
        None => Ok(None),
        Some(other) => {
            let found = sample_of(alloc, one, other.as_slice(), fresh)?;
            Ok(found)
        }
    }
}

/// Returns the queue with this text, if there is a text and it is one.
fn queue_by(alloc: Global, text: Option<Vec<u8>>) -> Result<Option<Subject>, NoMemory>
    ensures { IfOk result (λ found. found ≡ subject_by (option_map (λ t. t.items) text)) }
{
    match text {
        None => Ok(None),
        Some(text) => {
            let queue = subject_if(alloc, text.as_slice())?;
            Ok(queue)
        }
    }
}

/// Returns the first so many of some parts, or all where there are fewer.
fn front_of<'a, 'b>(parts: &'b [Option<Part<'a>>], count: usize) -> &'b [Option<Part<'a>>]
    ensures { result.now ≡ take count parts.now }
{
    if count < parts.len() {
        &parts[..count]
    } else {
        parts
    }
}

/// Returns the part of each reason that has this length, if it has one.
fn parts_of<'a>(
    alloc: Global,
    reasons: &[Reason<'a>],
    length: Length,
) -> Result<Vec<Option<Part<'a>>>, NoMemory>
    ensures { IfOk result (λ parts. map (option_map part_view) parts.items ≡ map (reason_part length.has_tail length.tokens) reasons.now) }
{
    let mut parts = Vec::with_capacity(alloc, reasons.len())?;
    for reason in reasons {
        let part = part_with(alloc, reason, length)?;
        parts.push(part)?;
    }
    Ok(parts)
}

/// Returns the part of a reason that has this length, if it has one.
fn part_with<'a>(
    alloc: Global,
    reason: &Reason<'a>,
    length: Length,
) -> Result<Option<Part<'a>>, NoMemory>
    ensures { IfOk result (λ part. option_map part_view part ≡ reason_part length.has_tail length.tokens reason.now) }
{
    // (the tokens tell the prover that they are those of a pattern)
    let _ = reason.subject.tokens();
    let found = part_of(alloc, reason.subject, length)?;
    match found {
        None => Ok(None),
        Some(tokens) => {
            let part = Part {
                tokens,
                queue: reason.queue,
            };
            Ok(Some(part))
        }
    }
}
