use crate::drawing::mapped_by;
use crate::{AccountMap, Mapped};
use base::{Alike, Copying, Items, NoMemory, Shared, are_alike};
use std::alloc::Global;
use std::marker::Model;
use subjects::SubjectRef;

/// The mappings of an account, which its users share. A clause sees them in the order of their sources' bytes.
///
/// An account without mappings pays nothing for a message, and nothing is allocated but the mapped subject. Who keeps mapped
/// subjects asks by parts: `source_of`, `AccountMap::chosen`, `Destination::reached`.
#[derive(Debug)]
pub struct Mappings {
    /// None where there are no mappings, as in most accounts.
    maps: Option<Shared<Items<AccountMap>>>,
}

impl Drop for Mappings {
    #[inline(always)]
    fn drop(self) {
        let Self { maps: _ } = self;
    }
}

impl Model for Mappings {
    ghost use Rattle.std.specs.Prelude.{List, []};
    ghost use Rattle.std.specs.Option.{unwrap_or};
    ghost use Rattle.account_mappings.specs.Drawing.{SourceMap};

    ghost Value = { List SourceMap };

    ghost view = { λ m. unwrap_or m.maps [] };
}

impl Mappings {
    ghost use Rattle.std.specs.Prelude.{◌≡◌, [], IfOk};
    ghost use Rattle.account_mappings.specs.Drawing.{IsDrawn, mapped_by};

    /// None.
    pub fn none() -> Mappings
        ensures { result ≡ [] }
    {
        Mappings { maps: None }
    }

    /// Copies an account's mappings, to be shared. `NoMemory` where memory could not be had.
    pub fn of(alloc: Global, maps: &Items<AccountMap>) -> Result<Mappings, NoMemory>
        ensures { IfOk result (λ mappings. mappings ≡ maps.now) }
    {
        match maps.as_slice() {
            [] => Ok(Mappings { maps: None }),
            _ => Ok(Mappings {
                maps: Some(Shared::new(alloc, maps.copy(alloc)?)?),
            }),
        }
    }

    /// The mappings in order.
    pub fn as_slice(&self) -> &[AccountMap]
        ensures { result.now ≡ self.now }
    {
        match &self.maps {
            None => &[],
            Some(maps) => maps.get().as_slice(),
        }
    }

    /// Returns under which subject a message is sent on, as `mapped_by` does. Without mappings it is a test.
    #[inline(always)]
    pub fn mapped(
        &self,
        alloc: Global,
        subject: &SubjectRef<'_>,
        word: u64,
    ) -> Result<Mapped, NoMemory>
        ensures { IsDrawn (mapped_by self.now subject.now word) result }
    {
        match &self.maps {
            None => Ok(Mapped::Same),
            Some(maps) => mapped_by(alloc, maps.get().as_slice(), subject, word),
        }
    }
}

impl Copying for Mappings {
    fn copy(&self, _alloc: Global) -> Result<Mappings, NoMemory> {
        match &self.maps {
            None => Ok(Mappings { maps: None }),
            Some(maps) => Ok(Mappings {
                maps: Some(maps.again()?),
            }),
        }
    }
}

impl Alike for Mappings {
    fn is_like(&self, other: &Mappings) -> bool {
        are_alike(self.as_slice(), other.as_slice())
    }
}
