ghost use Rattle.std.specs.Prelude.{◌≡◌};
ghost use Rattle.subjects.specs.Subject.{is_star, is_tail, same_token, tokens_of};

use base::Pieces;

/// The tokens of a text from its front, one at a time.
pub fn tokens_in(text: &[u8]) -> Pieces<'_>
    ensures { result ≡ tokens_of text.now }
{
    Pieces::of(text, b'.')
}

/// Whether a token is `*`.
pub fn is_star(token: &[u8]) -> bool
    ensures { result ≡ is_star token.now }
{
    token == b"*".as_slice()
}

/// Whether a token is `>`.
pub fn is_tail(token: &[u8]) -> bool
    ensures { result ≡ is_tail token.now }
{
    token == b">".as_slice()
}

/// Whether two tokens have the same bytes.
pub fn same_token(a: &[u8], b: &[u8]) -> bool
    ensures { result ≡ same_token a.now b.now }
{
    a == b
}
