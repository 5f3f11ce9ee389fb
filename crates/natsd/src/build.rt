// What the program knows of how it was built (docs/OPERATING.md, "Install").
use std::alloc::AllocGlobal;
use std::fs::Files;
use std::io::{Error, ErrorKind};
use std::os::unix::fs::MetadataExt;
use std::{env, fs, io};

/// The program's version, as INFO and `--version` have it.
pub const VERSION: &str = "0.1.0";

/// How many bytes the file has at most.
const MOST: u64 = 256;

/// How a program was built.
#[derive(Clone, Copy, Debug)]
pub struct Build<'a> {
    /// The commit of its text.
    pub commit: &'a [u8],
    /// Whether it is proved.
    pub is_proved: bool,
}

/// Reads what stands beside the program of how it was built, in a file with its name and `.build`. What is older than
/// the program says nothing of it.
pub(crate) fn read_build<R: Files + AllocGlobal>(rt: &R) -> io::Result<Vec<u8>> {
    let program = env::current_exe(rt)?;
    let path = format!(in rt.alloc(); "{}.build", program.as_str())?;
    let (built, found) = (
        fs::metadata(rt, program.as_str())?,
        fs::metadata(rt, path.as_str())?,
    );
    if !found.is_file() || found.size() > MOST || found.mtime() < built.mtime() {
        return Err(Error::from(ErrorKind::InvalidData));
    }
    fs::read(rt, path.as_str())
}

/// Returns how a program was built, by the line of such a file: the commit, a space, and `proved` or `unproved`.
pub(crate) fn build_of(line: &[u8]) -> Option<Build<'_>> {
    if let Some(commit) = line.strip_suffix(b" proved\n") {
        return Some(Build {
            commit,
            is_proved: true,
        });
    }
    let commit = line.strip_suffix(b" unproved\n")?;
    Some(Build {
        commit,
        is_proved: false,
    })
}
