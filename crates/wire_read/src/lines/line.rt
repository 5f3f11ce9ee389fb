ghost use Rattle.std.specs.Prelude.{◌≡◌, length};
ghost use Rattle.wire_read.specs.lines.Line.{line_of, without_cr};

use memchr::memchr;

/// The most bytes of a control line, without its end.
pub const MAX_CONTROL_LINE: usize = 4096;

/// How far the first control line of some bytes has come.
pub enum FoundLine {
    /// It goes on.
    Open,
    /// No continuation could make it short enough.
    TooLong,
    /// It is followed by a LF at this place.
    Ended(usize),
}

/// How many bytes a line has without one CR at its end.
pub fn len_without_cr(line: &[u8]) -> usize
    ensures { result ≡ length (without_cr line.now) }
{
    let len = line.len();
    if len > 0 && line[len - 1] == b'\r' {
        len - 1
    } else {
        len
    }
}

/// The first control line of the bytes, of which no more are searched than a line may have.
pub fn find_line(bytes: &[u8]) -> FoundLine
    ensures { result ≡ line_of bytes.now }
{
    let window = &bytes[..bytes.len().min(MAX_CONTROL_LINE + 2)];
    match memchr(b'\n', window) {
        Some(end) => {
            if len_without_cr(&window[..end]) > MAX_CONTROL_LINE {
                FoundLine::TooLong
            } else {
                FoundLine::Ended(end)
            }
        }
        None => {
            if len_without_cr(window) > MAX_CONTROL_LINE {
                FoundLine::TooLong
            } else {
                FoundLine::Open
            }
        }
    }
}
