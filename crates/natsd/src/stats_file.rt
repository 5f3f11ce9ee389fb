// The file in which it is told what the server counts (docs/OPERATING.md, "Numbers").
use command_line::ServeOptions;
use server_log::ServerLog;
use server_log::prints::Prints;
use std::alloc::AllocGlobal;
use std::fs::{File, Files};
use std::io::Write;
use std::sync::Wait;
use std::time::Clock;
use std::{fs, io};

/// What is opened in place of the file, so that a descriptor stays at hand.
const SPARE: &str = "/dev/null";

/// The file for the metrics. Between two writings a spare keeps a descriptor for it, so that it takes nobody's.
#[derive(Drop)]
struct StatsFile<'a, R: Files> {
    rt: &'a R,
    path: &'a str,
    spare: Option<R::File>,
    /// Whether the last writing has failed, which was told.
    has_failed: bool,
}

impl<'a, R: Files + Wait + Clock + AllocGlobal> StatsFile<'a, R> {
    /// Returns the file of this name, which is not written yet.
    fn new(rt: &'a R, path: &'a str) -> StatsFile<'a, R> {
        StatsFile {
            rt,
            path,
            spare: File::open(rt, SPARE).ok(),
            has_failed: false,
        }
    }

    /// Writes each text in place of the one before, until they end. The log is told why one can't be written, unless the one
    /// before couldn't be.
    fn write_each(&mut self, texts: &Prints, log: &ServerLog<'_>) {
        for _ in self.rt.forever() {
            let Some(text) = texts.next(self.rt) else {
                return;
            };
            self.write(text.as_slice(), log);
        }
    }

    /// Writes a text.
    fn write(&mut self, text: &[u8], log: &ServerLog<'_>) {
        self.spare = None;
        let written = self.replace(text);
        self.spare = File::open(self.rt, SPARE).ok();
        match written {
            Ok(()) => self.has_failed = false,
            Err(error) => {
                if !self.has_failed {
                    log.tell_failed(self.rt, self.path, &error);
                }
                self.has_failed = true;
            }
        }
    }

    /// Writes a text beside the file, and renames it over that: who reads the file has one text whole.
    fn replace(&self, text: &[u8]) -> io::Result<()> {
        let Ok(beside) = format!(in self.rt.alloc(); "{}.new", self.path) else {
            return Err(io::Error::from(io::ErrorKind::OutOfMemory));
        };
        write_new(self.rt, beside.as_str(), text)?;
        fs::rename(self.rt, beside.as_str(), self.path)
    }
}

/// Writes the metrics to the file that the options name, until they end. It does nothing where they name none.
pub(crate) fn write_metrics<R: Files + Wait + Clock + AllocGlobal>(
    rt: &R,
    options: &ServeOptions,
    metrics: &Prints,
    log: &ServerLog<'_>,
) {
    if let Some(path) = &options.stats_file {
        StatsFile::new(rt, path.as_str()).write_each(metrics, log);
    }
}

/// Writes a text to a file of this name, and closes it.
fn write_new<R: Files>(rt: &R, path: &str, text: &[u8]) -> io::Result<()> {
    let mut file = File::create(rt, path)?;
    file.write_all(text)
}
