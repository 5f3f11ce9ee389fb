ghost use Rattle.std.specs.Prelude.{◌≡◌, ◌==◌, ◌||◌, not, length};
ghost use Rattle.subjects.specs.Subject.{is_subject, is_text_byte, is_wildcard, tokens_of};

/// Whether a text is a subject, in one walk over its bytes. What is wrong with one that isn't is not looked for.
pub fn is_subject(text: &[u8]) -> bool
    ensures { result ≡ is_subject (tokens_of text.now) }
{
    let mut start = 0;
    let mut dots = 0usize;
    for at in 0..text.len() {
        let byte = text[at];
        // most bytes of a token are greater than the dot, and need no other test
        if byte < b'/' {
            if byte == b'.' {
                if !is_name(&text[start..at]) {
                    return false;
                }
                dots += 1;
                start = at + 1;
            } else if is_bad(byte) {
                return false;
            }
        }
    }
    dots < 512 && is_name(&text[start..])
}

/// Whether a token is neither empty nor a wildcard.
fn is_name(token: &[u8]) -> bool
    ensures { result ≡ not (length token.now == 0 || is_wildcard token.now) }
{
    1 < token.len() || (token.len() == 1 && !(token[0] == b'*' || token[0] == b'>'))
}

/// Whether a byte may stand in no text.
fn is_bad(byte: u8) -> bool
    ensures { result ≡ not (is_text_byte byte) }
{
    byte == 0 || byte == b'\t' || byte == b'\n' || byte == b'\r' || byte == b' '
}
