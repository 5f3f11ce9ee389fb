ghost use Rattle.std.specs.Prelude.{◌≡◌, ◌+◌, ◌∷◌, ◌≤◌, [], length, take, drop, IfOk, IfSome, MatchOption};
ghost use Rattle.std.specs.List.{prefix_len};
ghost use Rattle.base.specs.Blanks.{blanks_of};
ghost use Rattle.wire_read.specs.lines.Field.{is_field_byte, first_field, after_first_field, fields, counted, trimmed};
ghost use Rattle.wire_read.specs.lines.Places.{text_at, text_if_at, fields_at, AreInOrder, IsBehind};

use base::{SharedBytes, count_blanks, is_blank};
use std::alloc::AllocError;

/// Where a field stands in its line.
#[derive(Clone, Copy)]
pub struct Place {
    pub start: usize,
    pub end: usize,
}

/// Where the fields of a line stand, as many as an operation may take.
#[derive(Clone, Copy)]
pub enum FieldsAt {
    One(Place),
    Two(Place, Place),
    Three(Place, Place, Place),
    Four(Place, Place, Place, Place),
    /// There are none, or more than four.
    Other,
}

/// The text at a place of a line.
pub fn text_at(line: &[u8], place: Place) -> &[u8]
    ensures { result.now ≡ text_at line.now place }
{
    let end = place.end.min(line.len());
    &line[place.start.min(end)..end]
}

/// The text at a place of the line of the first `len` bytes, which it shares.
#[tactic(auto, using(crate::proofs::lines::PlaceLemmas::cut_is))]
pub fn cut(bytes: &SharedBytes, len: usize, place: Place) -> Result<SharedBytes, AllocError>
    requires { len ≤ length bytes.now }
    ensures { IfOk result (λ text. text ≡ text_at (take len bytes.now) place) }
{
    let end = place.end.min(len);
    let text = bytes.part(place.start.min(end)..end)?;
    Ok(text)
}

/// The same of a place that may be there.
pub fn cut_if(
    bytes: &SharedBytes,
    len: usize,
    place: Option<Place>,
) -> Result<Option<SharedBytes>, AllocError>
    requires { len ≤ length bytes.now }
    ensures { IfOk result (λ text. text ≡ text_if_at (take len bytes.now) place) }
{
    match place {
        None => Ok(None),
        Some(place) => Ok(Some(cut(bytes, len, place)?)),
    }
}

/// How many bytes of a field stand in front.
fn field_len(text: &[u8]) -> usize
    ensures value { result ≡ prefix_len is_field_byte text.now }
    ensures bound { result ≤ length text.now }
{
    for (i, byte) in text.iter().enumerate() {
        if is_blank(*byte) {
            return i;
        }
    }
    text.len()
}

/// What stands behind the blanks in front of what follows a place of a line.
pub fn trim(line: &[u8], from: usize) -> Place
    requires { from ≤ length line.now }
    ensures { text_at line.now result ≡ trimmed (drop from line.now) }
{
    Place {
        start: from + count_blanks(&line[from..]),
        end: line.len(),
    }
}

/// The first field of what follows a place of a line. It has no byte where there is none.
pub fn first_place(line: &[u8], from: usize) -> Place
    requires { from ≤ length line.now }
    ensures text { text_at line.now result ≡ first_field (drop from line.now) }
    ensures rest { drop result.end line.now ≡ after_first_field (drop from line.now) }
    ensures behind { result.start ≡ from + blanks_of (drop from line.now) }
    ensures ordered { result.start ≤ result.end }
    ensures within { result.end ≤ length line.now }
{
    let start = from + count_blanks(&line[from..]);
    let end = start + field_len(&line[start..]);
    Place { start, end }
}

/// The next field of what follows a place of a line, if there is one.
fn next_place(line: &[u8], from: usize) -> Option<Place>
    requires { from ≤ length line.now }
    ensures fields { MatchOption result (fields (drop from line.now) ≡ []) (λ p. fields (drop from line.now) ≡ text_at line.now p ∷ fields (drop p.end line.now)) }
    ensures within { IfSome result (λ p. IsBehind from line.now p) }
{
    let place = first_place(line, from);
    if place.start == place.end {
        None
    } else {
        Some(place)
    }
}

/// The fields of what follows a place of a line, each behind the blanks behind the one before.
pub fn fields_of(line: &[u8], from: usize) -> FieldsAt
    requires { from ≤ length line.now }
    ensures texts { fields_at line.now result ≡ counted (fields (drop from line.now)) }
    ensures order { AreInOrder from line.now result }
{
    let Some(first) = next_place(line, from) else {
        return FieldsAt::Other;
    };
    let Some(second) = next_place(line, first.end) else {
        return FieldsAt::One(first);
    };
    let Some(third) = next_place(line, second.end) else {
        return FieldsAt::Two(first, second);
    };
    let Some(fourth) = next_place(line, third.end) else {
        return FieldsAt::Three(first, second, third);
    };
    match next_place(line, fourth.end) {
        None => FieldsAt::Four(first, second, third, fourth),
        Some(_) => FieldsAt::Other,
    }
}
