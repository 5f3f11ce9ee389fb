//! Messages that stand in one block.
ghost use Rattle.std.specs.Prelude.{◌≡◌, IfOk};
ghost use Rattle.wire_message.specs.Runs.{IsSpot, spot_texts};

use crate::{MessageText, TextsAt};
use base::{NoMemory, SharedBytes};
use std::alloc::{AllocError, Global};
use std::marker::Model;

/// Where a message without reply or header block stands in a block: its subject, and its payload at the end of its own text.
#[derive(Clone, Copy, Debug)]
pub struct Spot {
    /// Where its subject stands. Messages on one subject may name one place.
    pub subject: u32,
    /// The bytes of the subject.
    pub subject_len: u32,
    /// Where its own text begins, with the same subject.
    pub start: u32,
    /// Where its payload begins.
    pub payload: u32,
    /// Where its payload ends.
    pub end: u32,
}

/// A run: messages without reply or header block that stand in one block, one at least. A clause sees the list of their texts.
#[derive(Debug)]
pub struct TextRun {
    block: SharedBytes,
    spots: Vec<Spot>,
    /// How many of them, the first, were dropped.
    gone: usize,
}

impl Drop for TextRun {
    #[inline(always)]
    fn drop(self) {
        let Self {
            block: _,
            spots: _,
            gone: _,
        } = self;
    }
}

impl Model for TextRun {
    ghost use Rattle.std.specs.Prelude.{◌<◌, List, All, drop, length, map};
    ghost use Rattle.wire_message.specs.Texts;
    ghost use Rattle.wire_message.specs.Runs.{IsSpot, spot_texts};

    ghost Value = { List Texts.Texts };

    ghost view = { λ r. map (spot_texts r.block) (drop r.gone r.spots.items) };

    ghost invariant = { λ r. All (IsSpot r.block) r.spots.items × (r.gone < length r.spots.items) };
}

impl TextRun {
    ghost use Rattle.std.specs.Prelude.{◌≡◌, ◌≤◌, ◌<◌, ◌+◌, take, ◌∷◌, All, IfOk, IfSome, drop, slice_get, length, map};
    ghost use Rattle.wire_message.specs.Runs.{IsSpot, spot_texts, tail_of};

    /// The messages that stand in a block at these spots.
    pub fn new(block: SharedBytes, spots: Vec<Spot>) -> TextRun
        requires spots { All (IsSpot block) spots.items }
        requires some { 0 < length spots.items }
        ensures { result ≡ map (spot_texts block) spots.items }
    {
        TextRun {
            block,
            spots,
            gone: 0,
        }
    }

    /// How many there are.
    #[inline(always)]
    pub fn len(&self) -> usize
        ensures all { result ≡ length self.now }
        ensures some { 0 < result }
    {
        self.spots.len() - self.gone
    }

    /// One of them, with one more owner of the block. `AllocError` where there are too many to count, or the message has more
    /// than a `MessageText` holds.
    pub fn text(&self, index: usize) -> Result<MessageText, AllocError>
        requires { index < length self.now }
        ensures { IfOk result (λ text. drop index self.now ≡ text ∷ drop (index + 1) self.now) }
    {
        let spot = self.spots[self.gone + index];
        message_at(&self.block, spot)
    }

    /// The end of one of them, as its frame has it: its payload behind its size, and CR LF behind each of the two.
    #[inline(always)]
    pub fn tail(&self, index: usize) -> &[u8]
        requires { index < length self.now }
        ensures { IfSome (slice_get self.now index) (λ text. result.now ≡ tail_of text.payload) }
    {
        let spot = self.spots[self.gone + index];
        let start = spot.start as usize + spot.subject_len as usize + 1;
        &self.block.as_slice()[start..spot.end as usize + 2]
    }

    /// The payload of one of them.
    #[inline(always)]
    pub fn payload(&self, index: usize) -> &[u8]
        requires { index < length self.now }
        ensures { IfSome (slice_get self.now index) (λ text. result.now ≡ text.payload) }
    {
        let spot = self.spots[self.gone + index];
        &self.block.as_slice()[spot.payload as usize..spot.end as usize]
    }

    /// The bytes of one's payload.
    #[inline(always)]
    pub fn size(&self, index: usize) -> usize
        requires { index < length self.now }
        ensures { IfSome (slice_get self.now index) (λ text. result ≡ length text.payload) }
    {
        let spot = self.spots[self.gone + index];
        (spot.end - spot.payload) as usize
    }

    /// The first ones, for one more owner of the block. `NoMemory` where memory could not be had.
    pub fn first_part(&self, alloc: Global, count: usize) -> Result<TextRun, NoMemory>
        requires some { 1 ≤ count }
        requires within { count ≤ length self.now }
        ensures { IfOk result (λ part. part ≡ take count self.now) }
    {
        let block = self.block.again()?;
        let first = self.gone;
        let spots = Vec::from_slice(alloc, &self.spots[first..first + count])?;
        Ok(TextRun {
            block,
            spots,
            gone: 0,
        })
    }

    /// Drops the first ones, fewer than there are.
    #[inline(always)]
    pub fn drop_first(&mut self, count: usize)
        requires { count < length self.old }
        ensures { self.new ≡ drop count self.old }
    {
        self.gone += count;
    }
}

/// The message that stands at a spot.
fn message_at(block: &SharedBytes, spot: Spot) -> Result<MessageText, AllocError>
    requires { IsSpot block.now spot }
    ensures { IfOk result (λ text. text ≡ spot_texts block.now spot) }
{
    let text = block.part(spot.start as usize..spot.end as usize)?;
    let at = TextsAt {
        subject: spot.subject_len as usize,
        reply: None,
        head: 0,
        payload: (spot.end - spot.payload) as usize,
    };
    MessageText::new(text, at)
}
