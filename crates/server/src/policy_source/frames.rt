ghost use Rattle.std.specs.Prelude.{◌≡◌, ◌≢◌, ◌≤◌, ◌==◌, length, if◌then◌else◌, true};
ghost use Rattle.server.specs.declared.policy_source.Next.TheVariants.{Bad as bad_frame};
ghost use Rattle.server.specs.policy_source.Frames.{IsFilled, IsNext, IsPiece, IsPieceOf, IsSized, IsSizeOf, IsTextOf};

use crate::policy_source::{Next, Policies};
use base::number_of;
use devices::Source;
use std::alloc::Global;
use std::sync::Mutex;

/// How many digits a size has, at most.
const MOST_DIGITS: usize = 7;

/// Policies as frames: one to seven decimal digits, LF, and that many bytes.
#[derive(Drop)]
pub struct Frames<S: Source + Drop> {
    alloc: Global,
    source: S,
}

/// What the next byte of a size is, or why there is none.
#[derive(Clone, Copy)]
pub(crate) enum Piece {
    Digit(u8),
    LineFeed,
    Other,
    End,
    Failed,
}

/// The size of a frame, or why there is none.
#[derive(Clone, Copy)]
pub(crate) enum Size {
    Bytes(usize),
    End,
    Bad,
}

impl<S: Source + Drop> Frames<S> {
    /// Returns the frames of a source.
    pub fn new(alloc: Global, source: S) -> Frames<S>
        ensures { result.source ≡ source }
    {
        Frames { alloc, source }
    }

    /// Reads the next byte of a size.
    fn piece(&mut self) -> Piece
        ensures read { IsPiece (S.remaining self.old.source) (S.remaining self.new.source) (S.failed self.new.source) result }
        ensures failed { result ≢ Piece.Failed → S.failed self.new.source ≡ S.failed self.old.source }
    {
        let mut one = [0; 1];
        match self.source.read(&mut one) {
            Ok(0) => Piece::End,
            Ok(_) => piece_of(one[0]),
            Err(_) => Piece::Failed,
        }
    }

    /// Reads the size of the next frame, and its LF.
    fn size(&mut self) -> Size
        ensures read { IsSized (S.remaining self.old.source) (S.remaining self.new.source) (S.failed self.new.source) result }
        ensures failed { result ≢ Size.Bad → S.failed self.new.source ≡ S.failed self.old.source }
    {
        let mut digits = [0; MOST_DIGITS];
        for place in 0..MOST_DIGITS {
            match self.piece() {
                Piece::Digit(digit) => digits[place] = digit,
                Piece::LineFeed => return size_of(&digits[..place]),
                Piece::Other => return Size::Bad,
                Piece::End => return end_behind(place),
                Piece::Failed => return Size::Bad,
            }
        }
        match self.piece() {
            Piece::LineFeed => size_of(&digits),
            _ => Size::Bad,
        }
    }

    /// Fills a buffer. Returns whether there were bytes enough.
    fn fill(&mut self, buf: &mut [u8]) -> bool
        ensures read { IsFilled (S.remaining self.old.source) (S.remaining self.new.source) (S.failed self.new.source) buf.new result }
        ensures failed { result ≡ true → S.failed self.new.source ≡ S.failed self.old.source }
    {
        let mut done = 0;
        while done < buf.len() {
            match self.source.read(&mut buf[done..]) {
                Ok(0) => return false,
                Ok(count) => done += count,
                Err(_) => return false,
            }
        }
        true
    }

    /// Reads the text of a frame of this size.
    fn text(&mut self, size: usize) -> Next
        ensures read { IsTextOf size (S.remaining self.old.source) (S.remaining self.new.source) (S.failed self.new.source) result }
        ensures failed { result ≢ bad_frame → S.failed self.new.source ≡ S.failed self.old.source }
    {
        let mut text = Vec::new(self.alloc);
        if text.resize(size, 0).is_err() {
            return Next::NoMemory;
        }
        if !self.fill(text.as_mut_slice()) {
            return Next::Bad;
        }
        Next::Text(text)
    }
}

/// Returns what a byte is in a size.
fn piece_of(byte: u8) -> Piece
    ensures { IsPieceOf byte result }
{
    match byte {
        b'0'..=b'9' => Piece::Digit(byte),
        b'\n' => Piece::LineFeed,
        _ => Piece::Other,
    }
}

/// Returns the size that the bytes before an LF write, if they write one.
fn size_of(digits: &[u8]) -> Size
    requires few { length digits.now ≤ 7 }
    ensures { IsSizeOf digits.now result }
{
    match number_of(digits) {
        Some(size) => Size::Bytes(size as usize),
        None => Size::Bad,
    }
}

/// Returns what an end is behind so many digits: the end of all frames, or a size without its LF.
fn end_behind(digits: usize) -> Size
    ensures { result ≡ if digits == 0 then Size.End else Size.Bad }
{
    if digits == 0 { Size::End } else { Size::Bad }
}

impl<S: Source + Drop> Policies for Frames<S> {
    fn next(&mut self, _descriptors: &Mutex<()>) -> Next
        ensures read { IsNext (S.remaining self.old.source) (S.remaining self.new.source) (S.failed self.new.source) result }
        ensures failed { result ≢ bad_frame → S.failed self.new.source ≡ S.failed self.old.source }
    {
        match self.size() {
            Size::Bytes(size) => self.text(size),
            Size::End => Next::End,
            Size::Bad => Next::Bad,
        }
    }
}
