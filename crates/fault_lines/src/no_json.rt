//! What a text looks like that is no JSON.
use base::NoMemory;
use policy_notes::positions::place_at;
use std::alloc::Global;
use std::str;

/// What a text has that JSON hasn't.
#[derive(Clone, Copy, Debug, PartialEq, Eq)]
pub enum Oddity {
    /// It begins with a byte order mark.
    ByteOrderMark,
    /// Bytes that aren't UTF-8.
    NotUtf8,
    /// A word that is no text and none of JSON's, as nats-server's configurations have.
    Word,
    Comment,
    /// A comma behind a last value.
    Comma,
    /// A TAB, or another control byte, in a text.
    Control,
}

impl Oddity {
    /// What it is, in words.
    fn words(self) -> &'static str {
        match self {
            Oddity::ByteOrderMark => "a byte order mark, which no policy has",
            Oddity::NotUtf8 => "bytes that aren't UTF-8",
            Oddity::Word => {
                "a word without quotes; if this is a configuration of nats-server, tools/from_nats_server makes a policy of it"
            }
            Oddity::Comment => "a comment, which JSON hasn't",
            Oddity::Comma => "a comma behind the last value, which JSON hasn't",
            Oddity::Control =>
                "a TAB or another control byte in a text: write a space in an entry, elsewhere \\t",
        }
    }
}

/// An oddity, and the index of the byte where it is.
#[derive(Clone, Copy, Debug, PartialEq, Eq)]
pub struct Found {
    pub oddity: Oddity,
    pub at: usize,
}

/// Returns the line on what a text has that JSON hasn't, if it has something. `NoMemory` where memory could not be had.
pub(crate) fn oddity_line(alloc: Global, text: &[u8]) -> Result<Option<String>, NoMemory> {
    match first_oddity(text) {
        None => Ok(None),
        Some(found) => {
            let place = place_at(text, found.at);
            let words = found.oddity.words();
            Ok(Some(format!(in alloc; "at {place}: {words}")?))
        }
    }
}

/// Returns what a text has first that JSON hasn't, if it has something: a byte order mark, then bytes that aren't
/// UTF-8, then a word, in texts and comments apart, then what comes first of all else.
pub(crate) fn first_oddity(text: &[u8]) -> Option<Found> {
    if text.starts_with(b"\xef\xbb\xbf") {
        return Some(Found {
            oddity: Oddity::ByteOrderMark,
            at: 0,
        });
    }
    match str::from_utf8(text) {
        Err(error) => Some(Found {
            oddity: Oddity::NotUtf8,
            at: error.valid_up_to(),
        }),
        Ok(_) => oddity_in(text),
    }
}

/// Where in a text a byte is.
#[derive(Clone, Copy, Debug, PartialEq, Eq)]
enum Mode {
    Between,
    InWord,
    InText,
    InEscape,
    InLine,
    InBlock,
}

/// What was seen of a text.
#[derive(Clone, Copy, Debug, PartialEq, Eq)]
struct Scan {
    mode: Mode,
    /// Where the comma is behind which nothing has stood.
    comma: Option<usize>,
    /// The first word, and the first of all else.
    word: Option<Found>,
    other: Option<Found>,
}

fn oddity_in(text: &[u8]) -> Option<Found> {
    let mut scan = Scan {
        mode: Mode::Between,
        comma: None,
        word: None,
        other: None,
    };
    for at in 0..text.len() {
        scan = scan.behind(&text[at..], at);
    }
    scan.word.or(scan.other)
}

impl Scan {
    /// What was seen once the first byte of the rest is passed, which has this index.
    fn behind(self, rest: &[u8], at: usize) -> Scan {
        match self.mode {
            Mode::InText => self.in_text(rest, at),
            Mode::InEscape => self.with(Mode::InText),
            Mode::InLine => {
                if rest.starts_with(b"\n") {
                    self.with(Mode::Between)
                } else {
                    self
                }
            }
            Mode::InBlock => {
                if rest.starts_with(b"*/") {
                    self.with(Mode::InWord)
                } else {
                    self
                }
            }
            Mode::Between | Mode::InWord => self.between(rest, at),
        }
    }

    /// The same in another mode.
    fn with(self, mode: Mode) -> Scan {
        Scan { mode, ..self }
    }

    /// The same with an oddity, if it is the first.
    fn odd(self, oddity: Oddity, at: usize) -> Scan {
        Scan {
            other: self.other.or(Some(Found { oddity, at })),
            ..self
        }
    }

    fn in_text(self, rest: &[u8], at: usize) -> Scan {
        match rest {
            [b'"', ..] => self.with(Mode::Between),
            [b'\\', ..] => self.with(Mode::InEscape),
            [byte, ..] if *byte < 0x20 => self.odd(Oddity::Control, at),
            _ => self,
        }
    }

    fn between(self, rest: &[u8], at: usize) -> Scan {
        match rest {
            [b' ' | b'\t' | b'\n' | b'\r', ..] => self.with(Mode::Between),
            [b'#', ..] => self.odd(Oddity::Comment, at).with(Mode::InLine),
            [b'/', b'/', ..] => self.odd(Oddity::Comment, at).with(Mode::InLine),
            [b'/', b'*', ..] => self.odd(Oddity::Comment, at).with(Mode::InBlock),
            [b'}' | b']', ..] => self.end(),
            [b',', ..] => Scan {
                mode: Mode::Between,
                comma: Some(at),
                ..self
            },
            _ => self.value(rest, at),
        }
    }

    /// Passes the end of an object or a list.
    fn end(self) -> Scan {
        let scan = match self.comma {
            None => self,
            Some(comma) => self.odd(Oddity::Comma, comma),
        };
        Scan {
            mode: Mode::Between,
            comma: None,
            ..scan
        }
    }

    /// Passes a byte of a value.
    fn value(self, rest: &[u8], at: usize) -> Scan {
        let scan = Scan {
            comma: None,
            ..self
        };
        match rest {
            [b'"', ..] => scan.with(Mode::InText),
            [b':' | b'{' | b'[', ..] => scan.with(Mode::Between),
            [byte, ..] if byte.is_ascii_alphabetic() && scan.mode == Mode::Between => {
                scan.named(rest, at).with(Mode::InWord)
            }
            _ => scan.with(Mode::InWord),
        }
    }

    /// Passes the first byte of a word.
    fn named(self, rest: &[u8], at: usize) -> Scan {
        if rest.starts_with(b"true") || rest.starts_with(b"false") || rest.starts_with(b"null") {
            return self;
        }
        let found = Found {
            oddity: Oddity::Word,
            at,
        };
        Scan {
            word: self.word.or(Some(found)),
            ..self
        }
    }
}
