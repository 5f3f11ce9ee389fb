ghost use Rattle.std.specs.Prelude.{◌≡◌, IfOk};

use crate::NoMemory;
use std::alloc::Global;
use std::marker::Model;

/// A value in a block of its own, so that what holds it stays small. A clause sees the value.
#[derive(Debug)]
pub struct Boxed<T> {
    value: Box<T>,
}

impl<T: Drop> Drop for Boxed<T> {
    #[inline(always)]
    fn drop(self) {
        let Self { value: _ } = self;
    }
}

impl<T> Model for Boxed<T> {
    ghost Value = { T };

    ghost view = { λ boxed. boxed.value.value };
}

impl<T: Drop> Boxed<T> {
    /// The value, in a block of its own. `NoMemory` where memory could not be had.
    pub fn new(alloc: Global, value: T) -> Result<Boxed<T>, NoMemory>
        ensures { IfOk result (λ boxed. boxed ≡ value) }
    {
        Ok(Boxed {
            value: Box::new(alloc, value)?,
        })
    }

    /// The value, handed over.
    pub fn into_inner(self) -> T
        ensures { result ≡ self }
    {
        let Boxed { value } = self;
        Box::into_inner(value)
    }
}
