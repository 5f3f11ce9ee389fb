ghost use Rattle.std.specs.Prelude.{◌≡◌, take};
ghost use Rattle.policy_notes.specs.positions.Place.{column_after, line_after};

use std::fmt;

/// A place in a text. Lines and columns count from 1, columns in bytes.
#[derive(Clone, Copy, Debug, PartialEq, Eq)]
pub struct Place {
    pub line: usize,
    pub column: usize,
}

/// The place of the byte with this index, or of the text's end where there is none: the line is one more than LFs stand
/// before it, the column one more than bytes stand between the last of these and it.
pub fn place_at(text: &[u8], at: usize) -> Place
    ensures line { result.line ≡ line_after 1 (take at text.now) }
    ensures column { result.column ≡ column_after 1 (take at text.now) }
{
    place_behind(&text[..at.min(text.len())])
}

/// The place right behind a text.
#[tactic(auto, unfolding(crate::specs::positions::Place::line_after, crate::specs::positions::Place::column_after))]
fn place_behind(front: &[u8]) -> Place
    ensures line { result.line ≡ line_after 1 front.now }
    ensures column { result.column ≡ column_after 1 front.now }
{
    let mut line = 1;
    let mut column = 1;
    for byte in front {
        if *byte == b'\n' {
            line += 1;
            column = 1;
        } else {
            column += 1;
        }
    }
    Place { line, column }
}

impl fmt::Display for Place {
    ghost use Rattle.std.specs.Prelude.{Some};
    ghost use Rattle.policy_notes.specs.positions.Place.{place_words};

    ghost output = { λ place. Some (place_words place) };

    fn fmt<W: fmt::Write>(&self, f: &mut fmt::Formatter<W>) -> fmt::Result {
        write!(f, "line {} column {}", self.line, self.column)
    }
}
