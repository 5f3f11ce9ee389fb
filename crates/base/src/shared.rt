ghost use Rattle.std.specs.Prelude.{◌≡◌, IfOk};

use crate::{Copying, NoMemory};
use std::alloc::Global;
use std::marker::Model;
use std::sync::Arc;

/// A value with several owners. One more owner takes no memory and copies nothing. A clause sees the value.
#[derive(Debug)]
pub struct Shared<T> {
    value: Arc<T>,
}

impl<T: Drop> Drop for Shared<T> {
    #[inline(always)]
    fn drop(self) {
        let Self { value: _ } = self;
    }
}

impl<T> Model for Shared<T> {
    ghost use Rattle.std.specs.Arc.{arc_value};

    ghost Value = { T };

    ghost view = { λ shared. arc_value shared.value };
}

impl<T> Shared<T> {
    /// The value.
    pub fn get(&self) -> &T
        ensures { result.now ≡ self.now }
    {
        &self.value
    }

    /// One more owner. `NoMemory` where there are too many to count.
    pub fn again(&self) -> Result<Shared<T>, NoMemory>
        ensures { IfOk result (λ same. same ≡ self.now) }
    {
        Ok(Shared {
            value: Arc::try_clone(&self.value)?,
        })
    }
}

impl<T: Drop> Shared<T> {
    /// The first owner of a value. `NoMemory` where memory could not be had.
    #[inline(always)]
    pub fn new(alloc: Global, value: T) -> Result<Shared<T>, NoMemory>
        ensures { IfOk result (λ shared. shared ≡ value) }
    {
        Ok(Shared {
            value: Arc::new(alloc, value)?,
        })
    }
}

impl<T> Copying for Shared<T> {
    fn copy(&self, _alloc: Global) -> Result<Shared<T>, NoMemory> {
        let same = self.again()?;
        Ok(same)
    }
}

/// A short text with several owners, as a name or an id. One more owner takes no memory. A clause sees its bytes. It has
/// eight bytes, since each delivery that waits has one.
#[derive(Debug)]
pub struct SharedText {
    bytes: Arc<Vec<u8>>,
}

impl Drop for SharedText {
    #[inline(always)]
    fn drop(self) {
        let Self { bytes: _ } = self;
    }
}

impl Model for SharedText {
    ghost use Rattle.std.specs.Prelude.{List, ℕ};
    ghost use Rattle.std.specs.Arc.{arc_value};

    ghost Value = { List ℕ };

    ghost view = { λ text. (arc_value text.bytes).items };
}

impl SharedText {
    /// A text of these bytes, which are copied. `NoMemory` where memory could not be had.
    pub fn of(alloc: Global, bytes: &[u8]) -> Result<SharedText, NoMemory>
        ensures { IfOk result (λ text. text ≡ bytes.now) }
    {
        Ok(SharedText {
            bytes: Arc::new(alloc, Vec::from_slice(alloc, bytes)?)?,
        })
    }

    /// The bytes.
    pub fn as_slice(&self) -> &[u8]
        ensures { result.now ≡ self.now }
    {
        self.bytes.as_slice()
    }

    /// One more owner. `NoMemory` where there are too many to count.
    pub fn again(&self) -> Result<SharedText, NoMemory>
        ensures { IfOk result (λ same. same ≡ self.now) }
    {
        Ok(SharedText {
            bytes: Arc::try_clone(&self.bytes)?,
        })
    }
}

impl Copying for SharedText {
    fn copy(&self, _alloc: Global) -> Result<SharedText, NoMemory> {
        let same = self.again()?;
        Ok(same)
    }
}
