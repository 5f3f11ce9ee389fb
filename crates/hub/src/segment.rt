//! A part of a history that its hub has handed out.
use base::Shared;
use records::History;
use std::marker::Model;
use world::PlainWorld;

/// A part of a history that its hub has handed out: entries, the world before the first and that after the last. Its
/// type keeps that they lead, one by one, from the one to the other. Parts that meet share the world between them.
pub struct Segment {
    opening: Shared<PlainWorld>,
    entries: History,
    closing: Shared<PlainWorld>,
}

impl Drop for Segment {
    fn drop(self) {
        let Self {
            opening: _,
            entries: _,
            closing: _,
        } = self;
    }
}

impl Model for Segment {
    ghost use Rattle.hub.specs.Segments.{HistoryPart, IsHistoryPart};

    ghost Value = { HistoryPart };

    ghost view = { λ s. record { opening = s.opening; entries = s.entries.entries; closing = s.closing } };

    ghost invariant = { λ s. IsHistoryPart (record { opening = s.opening; entries = s.entries.entries; closing = s.closing }) };
}

impl Segment {
    ghost use Rattle.std.specs.Prelude.{◌≡◌};
    ghost use Rattle.hub.specs.History.{IsOpening, IsLegalRun};
    ghost use Rattle.hub.specs.Segments.{IsHistoryPart, IsReached, first_number};

    /// The part between two worlds.
    pub(crate) fn of(
        opening: Shared<PlainWorld>,
        entries: History,
        closing: Shared<PlainWorld>,
    ) -> Segment
        requires { IsHistoryPart (record { opening = opening; entries = entries.entries; closing = closing }) }
        ensures { result ≡ record { opening = opening; entries = entries.entries; closing = closing } }
    {
        Segment {
            opening,
            entries,
            closing,
        }
    }

    /// Tells what holds of every segment: its entries lead, one by one, from its opening world to its closing one; and
    /// the opening world was reached by a legal run from one with which a hub opens. With number 0 it is such a world.
    pub fn prove_invariant(&self)
        ensures legal { IsLegalRun self.now.opening self.now.entries self.now.closing }
        ensures reached { IsReached self.now.opening }
        ensures opening { self.now.opening.number ≡ 0 → IsOpening self.now.opening }
    {
        // The loan tells the prover what the type keeps.
        let _ = &self.entries;
    }

    /// The number of the first entry. Without entries it is the number that comes next; or the last, 2^64 - 1, if that was
    /// given.
    pub fn first_number(&self) -> u64
        ensures { result ≡ first_number self.now }
    {
        self.opening.get().number().saturating_add(1)
    }

    /// The entries, oldest first. Their numbers rise by one.
    pub fn entries(&self) -> &History
        ensures { result.now.entries ≡ self.now.entries }
    {
        &self.entries
    }

    /// Takes the entries out, oldest first.
    pub fn into_entries(self) -> History
        ensures { result.entries ≡ self.entries }
    {
        let Segment {
            opening: _,
            entries,
            closing: _,
        } = self;
        entries
    }

    /// The world before the first entry.
    pub fn opening(&self) -> &PlainWorld
        ensures { result.now ≡ self.now.opening }
    {
        self.opening.get()
    }

    /// The world after the last entry.
    pub fn closing(&self) -> &PlainWorld
        ensures { result.now ≡ self.now.closing }
    {
        self.closing.get()
    }
}
