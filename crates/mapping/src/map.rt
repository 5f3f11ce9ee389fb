ghost use Rattle.std.specs.Prelude.{◌≡◌, ◌++◌, IfOk};
ghost use Rattle.subjects.specs.Subject.{tokens_of};

use crate::MapError;
use crate::locals::{local_of, parsed};
use crate::making::{first_numbers, inverse};
use crate::side::{Side, carry};
use crate::templates::{
    MappingError, count_stars, count_tokens, is_longer, push_tokens, template_fault,
};
use base::{Copying, NoMemory};
use std::alloc::Global;
use std::marker::Model;
use subjects::{Pattern, Subject, SubjectRef};

/// How the subjects of an exporting account and those of an importing one are paired: one to one, each wildcard of the
/// pattern with the same token on both sides, and its `>` with the same tokens (docs/GUARANTEE.md, "Mappings"). A clause
/// sees the two patterns, and which wildcards belong together.
///
/// It is made once, for an import row; `forward` and `back` are asked once a message. Each walks the subject and both patterns
/// once or twice, and takes one block for the tokens of `*`s, where there are any, and one for the text.
pub struct Mapping {
    outer: Side,
    local: Side,
}

impl Drop for Mapping {
    fn drop(self) {
        let Self { outer: _, local: _ } = self;
    }
}

impl Model for Mapping {
    ghost use Rattle.mapping.specs.Pairs.{RowMap, IsRowMap};
    ghost use Rattle.mapping.specs.Sides.{row_map, AreOf};

    ghost Value = { RowMap };

    ghost view = { λ m. row_map m.outer m.local };

    ghost invariant = { λ m. IsRowMap (row_map m.outer m.local) × AreOf m.outer m.local };
}

impl Mapping {
    ghost use Rattle.std.specs.Prelude.{◌≡◌, IfOk, None, false, length, true};
    ghost use Rattle.mapping.specs.Pairs.{IsRowMap, IsPair, IsMapped, IsSide, count_stars, has_repeat, has_tail, refers_to_each, forward, back};
    ghost use Rattle.subjects.specs.Subject.{tokens_of};
    ghost use Rattle.mapping.specs.Fault.{IsMade, in_order, unchanged, prefixed, prefix_fault, templated, template_fault};

    /// The mapping that leaves each subject of a pattern as it is. `NoMemory` where memory could not be had.
    pub fn identity(alloc: Global, pattern: &Pattern) -> Result<Mapping, MappingError>
        ensures { IsMade (unchanged pattern.now) None result }
    {
        let local = pattern.copy(alloc)?;
        let made = Mapping::in_order(alloc, pattern, local)?;
        Ok(made)
    }

    /// The mapping that puts a prefix before each subject of a pattern. `TooLong` where both together have more than 512
    /// tokens, else `NoMemory` where memory could not be had.
    pub fn with_prefix(
        alloc: Global,
        pattern: &Pattern,
        prefix: &Subject,
    ) -> Result<Mapping, MappingError>
        ensures { IsMade (prefixed pattern.now prefix.now) (prefix_fault pattern.now prefix.now) result }
    {
        if is_longer(prefix.tokens(), 512 - count_tokens(pattern)) {
            return Err(MappingError::TooLong);
        }
        let local = prefixed(alloc, pattern, prefix)?;
        let made = Mapping::in_order(alloc, pattern, local)?;
        Ok(made)
    }

    /// The mapping of each subject of a pattern to what a template, a text as `x.$2.$1.>`, makes of it
    /// (docs/GUARANTEE.md, "Mappings"). The template's first fault where it has one, in the order of `MappingError`;
    /// `NoMemory` is of a template without fault.
    pub fn with_to(
        alloc: Global,
        pattern: &Pattern,
        template: &[u8],
    ) -> Result<Mapping, MappingError>
        ensures { IsMade (templated pattern.now (tokens_of template.now)) (template_fault pattern.now template.now) result }
    {
        match template_fault(pattern, template) {
            Some(fault) => Err(fault),
            None => {
                let made = Mapping::templated(alloc, pattern, template)?;
                Ok(made)
            }
        }
    }

    /// The mapping of a template without fault.
    fn templated(alloc: Global, pattern: &Pattern, template: &[u8]) -> Result<Mapping, NoMemory>
        requires { template_fault pattern.now template.now ≡ None }
        ensures { IfOk result (λ m. m ≡ templated pattern.now (tokens_of template.now)) }
    {
        let local = local_of(alloc, template)?;
        let made = Mapping::of(alloc, pattern, local.pattern, local.references)?;
        Ok(made)
    }

    /// The mapping between two patterns whose wildcards have one order.
    fn in_order(alloc: Global, outer: &Pattern, local: Pattern) -> Result<Mapping, NoMemory>
        requires tails { has_tail local ≡ has_tail outer.now }
        requires stars { count_stars local ≡ count_stars outer.now }
        ensures { IfOk result (λ m. m ≡ record { outer = outer.now; local = local; references = in_order outer.now }) }
    {
        let references = first_numbers(alloc, count_stars(outer))?;
        let made = Mapping::of(alloc, outer, local, references)?;
        Ok(made)
    }

    /// The mapping between two patterns.
    fn of(
        alloc: Global,
        outer: &Pattern,
        local: Pattern,
        references: Vec<usize>,
    ) -> Result<Mapping, NoMemory>
        requires tails { has_tail local ≡ has_tail outer.now }
        requires stars { count_stars local ≡ length references.items }
        requires each { refers_to_each (count_stars outer.now) references.items ≡ true }
        requires once { has_repeat references.items ≡ false }
        ensures { IfOk result (λ m. m ≡ record { outer = outer.now; local = local; references = references.items }) }
    {
        let outer_tokens = count_tokens(outer);
        let local_tokens = count_tokens(&local);
        let numbers = inverse(alloc, count_stars(outer), references.as_slice())?;
        let pattern = outer.copy(alloc)?;
        Ok(Mapping {
            outer: Side {
                pattern,
                references: numbers,
                most: 512 + outer_tokens - local_tokens,
            },
            local: Side {
                pattern: local,
                references,
                most: 512 + local_tokens - outer_tokens,
            },
        })
    }

    /// The importer's subject for one of the exporter's. `None` where no pair has it; `TooLong` where the importer's
    /// would have more than 512 tokens; `NoMemory` where memory could not be had for it.
    pub fn forward(
        &self,
        alloc: Global,
        subject: &SubjectRef<'_>,
    ) -> Result<Option<Subject>, MapError>
        ensures value { IsMapped (forward self.now subject.now) result }
        ensures pairs { IsSide (IsPair self.now subject.now) result }
    {
        // The tokens tell the prover that the subject is one.
        let _ = subject.tokens();
        carry(alloc, &self.outer, &self.local, subject)
    }

    /// The exporter's subject for one of the importer's, with the same answers.
    pub fn back(&self, alloc: Global, subject: &SubjectRef<'_>) -> Result<Option<Subject>, MapError>
        ensures value { IsMapped (back self.now subject.now) result }
        ensures pairs { IsSide (λ outer. IsPair self.now outer subject.now) result }
    {
        // The tokens tell the prover that the subject is one.
        let _ = subject.tokens();
        carry(alloc, &self.local, &self.outer, subject)
    }

    /// The pattern that the importer's subjects have.
    pub fn local(&self) -> &Pattern
        ensures { result.now ≡ self.now.local }
    {
        &self.local.pattern
    }

    /// The pattern that the exporter's subjects have.
    pub fn outer(&self) -> &Pattern
        ensures { result.now ≡ self.now.outer }
    {
        &self.outer.pattern
    }

    /// Tells what holds of every mapping. It does nothing when it runs.
    pub fn prove_invariant(&self)
        ensures { IsRowMap self.now }
    {
        let _ = &self.outer;
    }
}

/// The pattern of the subjects that begin with a prefix and go on as a pattern says.
fn prefixed(alloc: Global, pattern: &Pattern, prefix: &Subject) -> Result<Pattern, NoMemory>
    ensures { IfOk result (λ local. local ≡ prefix.now ++ pattern.now) }
{
    let size = prefix.bytes().len() + 1 + pattern.bytes().len();
    let mut text = Vec::with_capacity(alloc, size)?;
    push_tokens(&mut text, prefix.tokens())?;
    push_tokens(&mut text, pattern.tokens())?;
    let local = parsed(alloc, text.as_slice())?;
    Ok(local)
}
