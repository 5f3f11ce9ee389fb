// What a task reads, kept for what is told of it afterwards.
ghost use Rattle.std.specs.Prelude.{◌≡◌};

use devices::{DeviceFailed, Source};
use std::alloc::Global;
use std::io;
use std::io::Read;

/// How many bytes of it are kept. A policy has no more.
const MOST: usize = 1024 * 1024;

/// A source over a reader that keeps what it has read, and why a read has failed.
#[derive(Drop)]
pub struct PolicyInput<R> {
    reader: R,
    reads: u64,
    has_failed: bool,
    failed: Option<io::Error>,
    /// What was read. There is none before the first read, and where it is too long or memory lacks.
    text: Option<Vec<u8>>,
    lacks_memory: bool,
    alloc: Global,
}

impl<R> PolicyInput<R> {
    ghost use Rattle.std.specs.Prelude.{None, false, option_copied, option_map};

    /// The input that a reader gives.
    pub fn new(alloc: Global, reader: R) -> PolicyInput<R>
        ensures reader { result.reader ≡ reader }
        ensures unread { (result.reads ≡ 0) × (result.text ≡ None) × (result.lacks_memory ≡ false) }
        ensures fresh { (result.has_failed ≡ false) × (result.failed ≡ None) }
    {
        PolicyInput {
            reader,
            reads: 0,
            has_failed: false,
            failed: None,
            text: None,
            lacks_memory: false,
            alloc,
        }
    }

    /// Returns what was read, where it is known whole.
    pub fn text(&self) -> Option<&[u8]>
        ensures { option_map (λ text. text.now) result ≡ option_map (λ text. text.items) self.now.text }
    {
        match &self.text {
            None => None,
            Some(text) => Some(text.as_slice()),
        }
    }

    /// Returns whether there was no memory to keep what was read.
    pub fn lacks_memory(&self) -> bool
        ensures { result ≡ self.now.lacks_memory }
    {
        self.lacks_memory
    }

    /// Returns why a read has failed, if one has.
    pub fn failed(&self) -> Option<&io::Error>
        ensures { option_copied result ≡ self.now.failed }
    {
        self.failed.as_ref()
    }

    /// Returns the reader.
    pub fn into_reader(self) -> R
        ensures { result ≡ self.reader }
    {
        let PolicyInput { reader, .. } = self;
        reader
    }

    /// Keeps what was read.
    fn keep(&mut self, bytes: &[u8])
        ensures { self.new ≡ record self.old { text = self.new.text; lacks_memory = self.new.lacks_memory } }
    {
        if self.reads == 0 {
            self.text = Some(Vec::new(self.alloc));
        }
        let has_room = self.has_room(bytes.len());
        let is_kept = match &mut self.text {
            None => false,
            Some(text) => has_room && text.extend_from_slice(bytes).is_ok(),
        };
        if has_room && !is_kept {
            self.lacks_memory = true;
        }
        if !is_kept {
            self.text = None;
        }
    }

    /// Returns whether so many more bytes are to be kept.
    fn has_room(&self, count: usize) -> bool {
        match &self.text {
            None => false,
            Some(text) => MOST.saturating_sub(text.len()) >= count,
        }
    }
}

impl<R: Read> Source for PolicyInput<R> {
    ghost remaining = { λ input. R.remaining input.reader };

    ghost reads = { λ input. input.reads };

    ghost failed = { λ input. input.has_failed };

    fn read(&mut self, buf: &mut [u8]) -> Result<usize, DeviceFailed> {
        match self.reader.read(buf) {
            Ok(0) => {
                self.keep(&[]);
                Ok(0)
            }
            Ok(count) => {
                self.keep(&buf[..count]);
                if self.reads < u64::MAX {
                    self.reads += 1;
                }
                Ok(count)
            }
            Err(error) => {
                self.has_failed = true;
                self.failed = Some(error);
                Err(DeviceFailed)
            }
        }
    }
}
