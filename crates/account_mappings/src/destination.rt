use crate::Mapped;
use crate::weights::Weight;
use base::{Alike, Copying, NoMemory};
use bytes::Bytes;
use mapping::one_way::{MapError, MappingError, OneWay};
use std::alloc::Global;
use std::marker::Model;
use subjects::{Pattern, SubjectRef};

/// Where messages on the subjects of a source are sent on: a template for these subjects, and how many of a hundred messages go
/// there. A clause sees the source, the template's text and the weight.
#[derive(Debug)]
pub struct Destination {
    text: Bytes,
    way: OneWay,
    weight: Weight,
}

impl Drop for Destination {
    fn drop(self) {
        let Self {
            text: _,
            way: _,
            weight: _,
        } = self;
    }
}

impl Model for Destination {
    ghost use Rattle.account_mappings.specs.Drawing.{Share, IsShare, share_of};

    ghost Value = { Share };

    ghost view = { λ d. share_of d.way.outer d.text d.weight };

    ghost invariant = { λ d. IsShare d.way d.text };
}

impl Destination {
    ghost use Rattle.std.specs.Prelude.{◌≡◌, ◌≤◌, Some};
    ghost use Rattle.account_mappings.specs.Drawing.{IsDestination, IsDrawn, reached, share_of};

    /// The destination with a template's text for the subjects of a source. The template's first fault where it has one, in the
    /// order of `MappingError`, `WildcardTwice` aside; `NoMemory` is of a template without fault.
    pub fn of(
        alloc: Global,
        source: &Pattern,
        text: &[u8],
        weight: Weight,
    ) -> Result<Destination, MappingError>
        ensures { IsDestination (share_of source.now text.now weight) result }
    {
        let way = OneWay::of(alloc, source, text)?;
        Ok(Destination {
            text: Bytes::copy_from_slice(alloc, text)?,
            way,
            weight,
        })
    }

    /// The template's text.
    pub fn text(&self) -> &[u8]
        ensures { result.now ≡ self.now.text }
    {
        self.text.as_slice()
    }

    /// How many of a hundred messages go there: 1 to 100.
    pub fn percent(&self) -> u64
        ensures weight { result ≡ self.now.weight }
        ensures some { 1 ≤ result }
        ensures most { result ≤ 100 }
    {
        self.weight.percent()
    }

    /// Returns what becomes of a subject of the source that is sent here; the destination is the one with this index.
    pub fn reached(
        &self,
        alloc: Global,
        index: usize,
        subject: &SubjectRef<'_>,
    ) -> Result<Mapped, NoMemory>
        ensures { IsDrawn (reached index (Some self.now) subject.now) result }
    {
        match self.way.forward(alloc, subject) {
            Ok(None) => Ok(Mapped::Same),
            Ok(Some(other)) => Ok(Mapped::To(other)),
            Err(MapError::TooLong) => Ok(Mapped::TooLong(index)),
            Err(MapError::NoMemory) => Err(NoMemory),
        }
    }
}

impl Copying for Destination {
    fn copy(&self, alloc: Global) -> Result<Destination, NoMemory> {
        Ok(Destination {
            text: self.text.clone()?,
            way: self.way.copy(alloc)?,
            weight: self.weight.copy(alloc)?,
        })
    }
}

impl Alike for Destination {
    fn is_like(&self, other: &Destination) -> bool {
        self.way.outer().is_like(other.way.outer())
            && self.text.is_like(&other.text)
            && self.weight.is_like(&other.weight)
    }
}
