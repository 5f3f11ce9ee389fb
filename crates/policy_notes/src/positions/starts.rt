//! Where the tokens of a JSON text begin.
ghost use Rattle.std.specs.Prelude.{◌≡◌, ◌++◌, IfOk, drop};
ghost use Rattle.json.specs.Lex.{class};
ghost use Rattle.policy_notes.specs.positions.Starts.{begins, mode_after, starts_from};
ghost use Rattle.policy_notes.specs.declared.positions.starts.Mode.TheVariants.{Between};

use base::NoMemory;
use std::alloc::Global;

/// What the bytes before one leave open.
#[derive(Clone, Copy, Debug)]
pub(crate) enum Mode {
    Between,
    InWord,
    InText,
    InEscape,
}

/// Whether a token begins with this byte.
fn begins(mode: Mode, byte: u8) -> bool
    ensures { result ≡ begins mode (class byte) byte }
{
    match byte {
        b'"' => matches!(mode, Mode::Between),
        b'\\' => matches!(mode, Mode::Between),
        b'{' | b'}' | b'[' | b']' => matches!(mode, Mode::Between | Mode::InWord),
        b',' | b':' | b' ' | b'\t' | b'\n' | b'\r' => false,
        _ => matches!(mode, Mode::Between),
    }
}

/// The mode behind this byte.
fn mode_after(mode: Mode, byte: u8) -> Mode
    ensures { result ≡ mode_after mode (class byte) }
{
    match mode {
        Mode::InEscape => Mode::InText,
        Mode::InText => match byte {
            b'"' => Mode::Between,
            b'\\' => Mode::InEscape,
            _ => Mode::InText,
        },
        Mode::Between => match byte {
            b'"' => Mode::InText,
            b'{' | b'}' | b'[' | b']' | b',' | b':' => Mode::Between,
            b' ' | b'\t' | b'\n' | b'\r' => Mode::Between,
            _ => Mode::InWord,
        },
        Mode::InWord => match byte {
            b'{' | b'}' | b'[' | b']' | b',' | b':' => Mode::Between,
            b' ' | b'\t' | b'\n' | b'\r' => Mode::Between,
            _ => Mode::InWord,
        },
    }
}

/// The indexes of the bytes with which tokens begin.
#[tactic(auto, unfolding(crate::specs::positions::Starts::starts_from))]
pub(crate) fn starts_of(alloc: Global, text: &[u8]) -> Result<Vec<usize>, NoMemory>
    ensures { IfOk result (λ starts. starts.items ≡ starts_from 0 Between text.now) }
{
    let mut starts = Vec::new(alloc);
    let mut mode = Mode::Between;
    for at in 0..text.len() {
        let byte = text[at];
        if begins(mode, byte) {
            starts.push(at)?;
        }
        mode = mode_after(mode, byte);
    }
    Ok(starts)
}
