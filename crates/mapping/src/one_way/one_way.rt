ghost use Rattle.std.specs.Prelude.{◌≡◌, IfOk, length, nat_lt};
ghost use Rattle.subjects.specs.Subject.{tokens_of, IsSubject};

use crate::one_way::fault::one_way_fault;
use crate::one_way::filling::filled_text;
use crate::templates::{MappingError, count_tokens, is_longer};
use crate::{MapError, local_of};
use base::{Copying, NoMemory};
use std::alloc::Global;
use std::marker::Model;
use subjects::{Pattern, Subject, SubjectRef};

/// How the subjects of a pattern are sent on under those of another: each reference of the template stands for the token of the
/// pattern's wildcard with its number, and `>` for the same tokens (docs/GUARANTEE.md, "Mappings"). A wildcard may be used
/// twice or not at all, so there is no way back. A clause sees the two patterns, and the numbers of the wildcards.
#[derive(Debug)]
pub struct OneWay {
    outer: Pattern,
    local: Pattern,
    /// Of each `*` of the local pattern in order, the number of the outer pattern's `*` with the same token, from 1.
    references: Vec<usize>,
    /// The most tokens of a subject that is mapped to one of at most 512.
    most: usize,
}

impl Drop for OneWay {
    fn drop(self) {
        let Self {
            outer: _,
            local: _,
            references: _,
            most: _,
        } = self;
    }
}

impl Model for OneWay {
    ghost use Rattle.mapping.specs.Pairs.{RowMap};
    ghost use Rattle.mapping.specs.one_way.OneWay.{IsMost, IsOneWay, way};

    ghost Value = { RowMap };

    ghost view = { λ m. way m.outer m.local m.references.items };

    ghost invariant = { λ m. IsOneWay (way m.outer m.local m.references.items) × IsMost m.most (way m.outer m.local m.references.items) };
}

impl OneWay {
    ghost use Rattle.std.specs.Prelude.{◌≡◌, IfOk, None, false, length, nat_lt, true};
    ghost use Rattle.subjects.specs.Subject.{in_set, tokens_of, IsSubject};
    ghost use Rattle.mapping.specs.templates.Wildcards.{are_within, count_stars, has_tail};
    ghost use Rattle.mapping.specs.Pairs.{IsMapped, IsPair, IsSide, forward};
    ghost use Rattle.mapping.specs.Fault.{IsMade, templated};
    ghost use Rattle.mapping.specs.one_way.Fault.{one_way_fault};
    ghost use Rattle.mapping.specs.one_way.OneWay.{IsOneWay, mapped, way};

    /// The mapping of each subject of a pattern to what a template, a text as `x.$2.$2.>`, makes of it
    /// (docs/GUARANTEE.md, "Mappings"). The template's first fault where it has one, in the order of `MappingError`:
    /// `WildcardTwice` is none here, and `WildcardCount` is a number that no wildcard has. `NoMemory` is of a template without
    /// fault.
    pub fn of(alloc: Global, pattern: &Pattern, template: &[u8]) -> Result<OneWay, MappingError>
        ensures { IsMade (templated pattern.now (tokens_of template.now)) (one_way_fault pattern.now template.now) result }
    {
        match one_way_fault(pattern, template) {
            Some(fault) => Err(fault),
            None => {
                let made = OneWay::templated(alloc, pattern, template)?;
                Ok(made)
            }
        }
    }

    /// The mapping of a template without fault.
    fn templated(alloc: Global, pattern: &Pattern, template: &[u8]) -> Result<OneWay, NoMemory>
        requires { one_way_fault pattern.now template.now ≡ None }
        ensures { IfOk result (λ m. m ≡ templated pattern.now (tokens_of template.now)) }
    {
        let local = local_of(alloc, template)?;
        let made = OneWay::between(alloc, pattern, local.pattern, local.references)?;
        Ok(made)
    }

    /// The mapping of one pattern's subjects to another's.
    fn between(
        alloc: Global,
        outer: &Pattern,
        local: Pattern,
        references: Vec<usize>,
    ) -> Result<OneWay, NoMemory>
        requires tails { has_tail local ≡ has_tail outer.now }
        requires stars { count_stars local ≡ length references.items }
        requires within { are_within (count_stars outer.now) references.items ≡ true }
        ensures { IfOk result (λ m. m ≡ way outer.now local references.items) }
    {
        let most = 512 + count_tokens(outer) - count_tokens(&local);
        Ok(OneWay {
            outer: outer.copy(alloc)?,
            local,
            references,
            most,
        })
    }

    /// The pattern of the subjects that are sent on.
    pub fn outer(&self) -> &Pattern
        ensures { result.now ≡ self.now.outer }
    {
        &self.outer
    }

    /// The subject under which one of the pattern is sent on. `None` where the pattern hasn't the subject; `TooLong` where the
    /// mapped one would have more than 512 tokens; `NoMemory` where memory could not be had for it.
    pub fn forward(
        &self,
        alloc: Global,
        subject: &SubjectRef<'_>,
    ) -> Result<Option<Subject>, MapError>
        ensures value { IsMapped (forward self.now subject.now) result }
        ensures pairs { IsSide (IsPair self.now subject.now) result }
    {
        // The tokens tell the prover that the subject is one.
        let _ = subject.tokens();
        if !self.outer.matches(subject) {
            return Ok(None);
        }
        if exceeds(subject, self.most) {
            return Err(MapError::TooLong);
        }
        match self.mapped(alloc, subject) {
            Ok(mapped) => Ok(Some(mapped)),
            Err(_) => Err(MapError::NoMemory),
        }
    }

    /// The subject under which one of the pattern is sent on, which isn't too long.
    fn mapped(&self, alloc: Global, subject: &SubjectRef<'_>) -> Result<Subject, NoMemory>
        requires member { in_set self.now.outer subject.now ≡ true }
        requires short { nat_lt 512 (length (mapped self.now subject.now)) ≡ false }
        ensures { IfOk result (λ other. other ≡ mapped self.now subject.now) }
    {
        // The tokens tell the prover that the subject is one.
        let _ = subject.tokens();
        let text = filled_text(
            alloc,
            &self.outer,
            &self.local,
            self.references.as_slice(),
            subject,
        )?;
        let mapped = Subject::from_valid(alloc, text)?;
        Ok(mapped)
    }
}

impl Copying for OneWay {
    fn copy(&self, alloc: Global) -> Result<OneWay, NoMemory> {
        Ok(OneWay {
            outer: self.outer.copy(alloc)?,
            local: self.local.copy(alloc)?,
            references: Vec::from_slice(alloc, self.references.as_slice())?,
            most: self.most,
        })
    }
}

/// Whether a subject has more than so many tokens.
fn exceeds(subject: &SubjectRef<'_>, most: usize) -> bool
    ensures test { result ≡ nat_lt most (length subject.now) }
    ensures grammar { IsSubject subject.now }
{
    let tokens = subject.tokens();
    most < 512 && is_longer(tokens, most)
}
