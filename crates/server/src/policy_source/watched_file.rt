use crate::policy_source::{Next, Policies};
use std::alloc::Global;
use std::fs::{File, Files, Metadata};
use std::io::{Error, ErrorKind, Read};
use std::os::unix::fs::MetadataExt;
use std::sync::{Mutex, Wait};
use std::time::{Clock, Duration};
use std::{fs, io};

/// After how long the file is looked at again, in milliseconds.
const PAUSE: u64 = 250;

/// How often a content that doesn't stay is read before that is told.
const TRIES: usize = 10;

/// What is opened in place of the file, so that its descriptor stays with the reader.
const SPARE: &str = "/dev/null";

/// Who is told of a file that can't be read.
pub trait Watcher {
    /// It can't be read, for this reason.
    fn tell_unreadable(&mut self, why: &[u8]);

    /// It can be read again.
    fn tell_readable(&mut self);
}

/// What a look at a file finds, without its content: which file it is, how long, and when it was changed.
#[derive(Clone, Copy, PartialEq, Eq)]
struct Look {
    device: u64,
    node: u64,
    size: u64,
    modified: (i64, i64),
    changed: (i64, i64),
}

impl Look {
    fn of(found: &Metadata) -> Look {
        Look {
            device: found.dev(),
            node: found.ino(),
            size: found.size(),
            modified: (found.mtime(), found.mtime_nsec()),
            changed: (found.ctime(), found.ctime_nsec()),
        }
    }
}

/// The policy of a file, which is read again when a look finds it changed. Between two readings a spare keeps the file's
/// descriptor.
#[derive(Drop)]
pub struct WatchedFile<'a, R: Files, E> {
    rt: &'a R,
    alloc: Global,
    path: &'a str,
    /// What was taken last, and what the look found that came with it.
    last: Option<Vec<u8>>,
    seen: Option<Look>,
    spare: Option<R::File>,
    /// Who is told why the file can't be read, and what was told last.
    watcher: &'a mut E,
    told: Option<ErrorKind>,
}

impl<'a, R: Files + Clock + Wait + AllocGlobal, E: Watcher> WatchedFile<'a, R, E> {
    /// Returns a file that has not been read. The watcher is told why it can't be read.
    pub fn new(rt: &'a R, path: &'a str, watcher: &'a mut E) -> WatchedFile<'a, R, E> {
        let alloc = rt.alloc();
        WatchedFile {
            rt,
            alloc,
            path,
            last: None,
            seen: None,
            spare: None,
            watcher,
            told: None,
        }
    }

    /// Looks at the file. What isn't a regular file is refused: to open a pipe might wait for another process.
    fn look(&self) -> io::Result<Look> {
        let found = fs::metadata(self.rt, self.path)?;
        if !found.is_file() {
            return Err(Error::new(ErrorKind::InvalidInput, "not a regular file"));
        }
        Ok(Look::of(&found))
    }

    /// Opens the file by the spare's descriptor. Where it can't be opened the spare has that again.
    fn open(&mut self, descriptors: &Mutex<()>) -> io::Result<R::File> {
        let guard = descriptors.lock(self.rt);
        self.spare = None;
        let file = File::open(self.rt, self.path);
        if file.is_err() {
            self.spare = File::open(self.rt, SPARE).ok();
        }
        drop(guard);
        file
    }

    /// Closes the file, and keeps its descriptor by the spare.
    fn close(&mut self, file: R::File, descriptors: &Mutex<()>) {
        let guard = descriptors.lock(self.rt);
        drop(file);
        self.spare = File::open(self.rt, SPARE).ok();
        drop(guard);
    }

    /// Reads what the file holds.
    fn read(&mut self, descriptors: &Mutex<()>) -> io::Result<Vec<u8>> {
        let mut file = self.open(descriptors)?;
        let mut text = Vec::new(self.alloc);
        let read = file.read_to_end(&mut text);
        self.close(file, descriptors);
        read?;
        Ok(text)
    }

    /// Reads a content that two looks find equal, a while apart, or returns `None` where the file hasn't changed since one
    /// was taken. A content that doesn't stay is an error.
    fn read_changed(&mut self, descriptors: &Mutex<()>) -> io::Result<Option<Vec<u8>>> {
        for _ in 0..TRIES {
            let look = self.look()?;
            if self.seen == Some(look) {
                return Ok(None);
            }
            let text = self.read(descriptors)?;
            self.pause();
            if self.look()? == look && self.read(descriptors)?.as_slice() == text.as_slice() {
                self.seen = Some(look);
                return Ok(Some(text));
            }
        }
        Err(Error::new(ErrorKind::ResourceBusy, "it keeps changing"))
    }

    /// Waits until the file is to be looked at again.
    fn pause(&self) {
        self.rt.sleep(Duration::from_millis(PAUSE));
    }

    /// Tells why the file can't be read, unless that was told last.
    fn tell(&mut self, error: io::Error) {
        let kind = error.kind();
        if self.told == Some(kind) {
            return;
        }
        self.told = Some(kind);
        if let Ok(why) = format!(in self.alloc; "{}: {error}", self.path) {
            self.watcher.tell_unreadable(why.as_str().as_bytes());
        }
    }

    /// Tells that the file can be read again, where it was told that it can't.
    fn tell_readable(&mut self) {
        if self.told.take().is_some() {
            self.watcher.tell_readable();
        }
    }

    /// Returns whether a content is the one that was taken last.
    fn is_last(&self, text: &[u8]) -> bool {
        match &self.last {
            None => false,
            Some(last) => last.as_slice() == text,
        }
    }

    /// Takes a content, if it is another than the last.
    fn take(&mut self, text: Vec<u8>) -> Next {
        if self.is_last(text.as_slice()) {
            return Next::Later;
        }
        match Vec::from_slice(self.alloc, text.as_slice()) {
            Ok(last) => {
                self.last = Some(last);
                Next::Text(text)
            }
            Err(_) => {
                self.seen = None;
                Next::NoMemory
            }
        }
    }
}

impl<R: Files + Clock + Wait + AllocGlobal, E: Watcher> Policies for WatchedFile<'_, R, E> {
    fn next(&mut self, descriptors: &Mutex<()>) -> Next {
        let next = match self.read_changed(descriptors) {
            Err(error) => {
                self.tell(error);
                Next::Later
            }
            Ok(found) => {
                self.tell_readable();
                match found {
                    None => Next::Later,
                    Some(text) => self.take(text),
                }
            }
        };
        if !matches!(&next, Next::Text(_)) {
            self.pause();
        }
        next
    }
}
