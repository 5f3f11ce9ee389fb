ghost use Rattle.std.specs.Prelude.{◌≡◌};

use devices::{DeviceFailed, NonBlockingSource};

/// A source that counts what was read of it.
#[derive(Drop)]
pub(crate) struct Counted<R> {
    reader: R,
    count: usize,
}

impl<R> Counted<R> {
    /// Returns a source of which nothing was read.
    pub(crate) fn new(reader: R) -> Counted<R>
        ensures reader { result.reader ≡ reader }
        ensures count { result.count ≡ 0 }
    {
        Counted { reader, count: 0 }
    }

    /// Returns how many bytes were read of it.
    pub(crate) fn count(&self) -> usize
        ensures { result ≡ self.now.count }
    {
        self.count
    }
}

impl<R: NonBlockingSource> NonBlockingSource for Counted<R> {
    ghost remaining = { λ r. R.remaining r.reader };

    ghost failed = { λ r. R.failed r.reader };

    ghost waits = { λ r. R.waits r.reader };

    fn read(&mut self, buf: &mut [u8]) -> Result<Option<usize>, DeviceFailed> {
        match self.reader.read(buf) {
            Ok(Some(count)) => {
                self.count = self.count.saturating_add(count);
                Ok(Some(count))
            }
            Ok(None) => Ok(None),
            Err(failed) => Err(failed),
        }
    }
}
