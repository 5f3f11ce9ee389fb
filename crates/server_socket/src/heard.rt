ghost use Rattle.std.specs.Prelude.{◌≡◌};

use devices::{DeviceFailed, NonBlockingSink};
use memchr::memchr;

/// A sink that keeps the errors among the texts that are written to it.
#[derive(Drop)]
pub(crate) struct Heard<'a, W> {
    writer: W,
    /// Whether the rest of a text comes next that was written before.
    is_rest: bool,
    errors: &'a mut Vec<u8>,
}

impl<'a, W> Heard<'a, W> {
    /// Returns a sink that adds errors to those. `is_rest` is whether the rest of a text comes first.
    pub(crate) fn new(writer: W, is_rest: bool, errors: &'a mut Vec<u8>) -> Heard<'a, W>
        ensures writer { result.writer ≡ writer }
        ensures rest { result.is_rest ≡ is_rest }
    {
        Heard {
            writer,
            is_rest,
            errors,
        }
    }

    /// Keeps a text from where its first error begins, if it has one. Without memory it isn't kept.
    #[inline(always)]
    fn hear(&mut self, text: &[u8])
        ensures { self.new.writer ≡ self.old.writer }
    {
        if let Some(place) = memchr(b'-', text) {
            if let Some(errors) = text.get(place..) {
                drop(self.errors.extend_from_slice(errors));
            }
        }
    }
}

impl<W: NonBlockingSink> NonBlockingSink for Heard<'_, W> {
    ghost contents = { λ w. W.contents w.writer };

    ghost failed = { λ w. W.failed w.writer };

    ghost waits = { λ w. W.waits w.writer };

    fn write(&mut self, bytes: &[u8]) -> Result<Option<usize>, DeviceFailed> {
        if !self.is_rest {
            self.hear(bytes);
        }
        match self.writer.write(bytes) {
            Ok(Some(count)) => {
                self.is_rest = count < bytes.len();
                Ok(Some(count))
            }
            Ok(None) => {
                self.is_rest = true;
                Ok(None)
            }
            Err(failed) => Err(failed),
        }
    }
}
