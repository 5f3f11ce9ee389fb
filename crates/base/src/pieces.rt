ghost use Rattle.std.specs.Prelude.{◌≡◌, ◌==◌, ◌∷◌, [], MatchOption, option_copied, position};
ghost use Rattle.base.specs.Pieces.{pieces_of, pieces_left};

use std::marker::Model;

/// What stands between the separators of a text, from its front, one piece at a time. A clause sees the
/// pieces that are left. Nothing is copied.
#[derive(Drop)]
pub struct Pieces<'a> {
    separator: u8,
    rest: Option<&'a [u8]>,
}

impl<'a> Model for Pieces<'a> {
    ghost use Rattle.std.specs.Prelude.{List, ℕ, option_copied};

    ghost Value = { List (List ℕ) };

    ghost use Rattle.base.specs.Pieces.{pieces_left};

    ghost view = { λ p. pieces_left p.separator (option_copied p.rest) };
}

impl<'a> Pieces<'a> {
    /// The pieces of a text, which may be empty: then there is one, the empty one.
    pub fn of(text: &'a [u8], separator: u8) -> Pieces<'a>
        ensures { result ≡ pieces_of separator text.now }
    {
        Pieces {
            separator,
            rest: Some(text),
        }
    }

    /// The pieces that are left once more, for a walk of their own.
    pub fn again(&self) -> Pieces<'a>
        ensures { result ≡ self.now }
    {
        Pieces {
            separator: self.separator,
            rest: self.rest,
        }
    }

    /// Takes the first of the pieces that are left, if one is.
    pub fn next_piece(&mut self) -> Option<&'a [u8]>
        ensures { MatchOption result ((self.old ≡ []) × (self.new ≡ [])) (λ piece. self.old ≡ piece.now ∷ self.new) }
    {
        match self.rest {
            None => None,
            Some(text) => {
                let (piece, behind) = cut_first(text, self.separator);
                self.rest = behind;
                Some(piece)
            }
        }
    }
}

/// The first piece of a text, and the text behind its separator where it has one.
fn cut_first(text: &[u8], separator: u8) -> (&[u8], Option<&[u8]>)
    ensures { pieces_of separator text.now ≡ result.0.now ∷ pieces_left separator (option_copied result.1) }
{
    match first_separator(text, separator) {
        None => (text, None),
        Some(at) => (&text[..at], Some(&text[at + 1..])),
    }
}

fn first_separator(text: &[u8], separator: u8) -> Option<usize>
    ensures { result ≡ position (λ b. b == separator) text.now }
{
    text.iter().position(|b| *b == separator)
}
