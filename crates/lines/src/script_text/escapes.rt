// The escapes of a text to send (docs/SCRIPT.md, "Bytes of a `send`").
ghost use Rattle.std.specs.Prelude.{◌≡◌, ◌∷◌, ◌<◌, ℕ, List, IfOk, IfSome, option_map};
ghost use Rattle.lines.specs.script_text.Escapes.{hex_of, unescaped, after_part, after_read, IsHex, IsHexRead};

use base::NoMemory;
use std::alloc::Global;

/// The bytes that a text stands for, or `None` where a `\` in it begins no escape.
pub fn unescape(alloc: Global, text: &[u8]) -> Result<Option<Vec<u8>>, NoMemory>
    ensures { IfOk result (λ bytes. option_map (λ vec. vec.items) bytes ≡ unescaped text.now) }
{
    let mut bytes = Vec::with_capacity(alloc, text.len())?;
    let mut escape = Escape::Plain;
    for byte in text {
        match read_byte(escape, *byte) {
            ByteRead::Wrong => return Ok(None),
            ByteRead::Within(next) => escape = next,
            ByteRead::Byte(byte) => {
                bytes.push(byte)?;
                escape = Escape::Plain;
            }
        }
    }
    match escape {
        Escape::Plain => Ok(Some(bytes)),
        _ => Ok(None),
    }
}

/// Which part of an escape has been read.
#[derive(Clone, Copy, Debug)]
enum Escape {
    Plain,
    Backslash,
    HighDigit,
    LowDigit(u8),
}

/// The result of reading a byte of a text.
#[derive(Clone, Copy, Debug)]
enum ByteRead {
    Wrong,
    Within(Escape),
    Byte(u8),
}

/// The result of reading the next byte, where a part of an escape has been read.
fn read_byte(escape: Escape, byte: u8) -> ByteRead
    requires { IsHex escape }
    ensures text { (rest : List ℕ) → after_part escape (byte ∷ rest) ≡ after_read result rest }
    ensures digit { IsHexRead result }
{
    match escape {
        Escape::Plain => match byte {
            b'\\' => ByteRead::Within(Escape::Backslash),
            _ => ByteRead::Byte(byte),
        },
        Escape::Backslash => match byte {
            b'r' => ByteRead::Byte(b'\r'),
            b'n' => ByteRead::Byte(b'\n'),
            b'\\' => ByteRead::Byte(b'\\'),
            b'x' => ByteRead::Within(Escape::HighDigit),
            _ => ByteRead::Wrong,
        },
        Escape::HighDigit => match hex_value(byte) {
            Some(high) => ByteRead::Within(Escape::LowDigit(high)),
            None => ByteRead::Wrong,
        },
        Escape::LowDigit(high) => match hex_value(byte) {
            Some(low) => ByteRead::Byte(16 * high + low),
            None => ByteRead::Wrong,
        },
    }
}

/// The value of a hexadecimal digit in either case.
fn hex_value(digit: u8) -> Option<u8>
    ensures value { result ≡ hex_of digit }
    ensures small { IfSome result (λ value. value < 16) }
{
    match digit {
        b'0'..=b'9' => Some(digit - b'0'),
        b'a'..=b'f' => Some(digit - b'a' + 10),
        b'A'..=b'F' => Some(digit - b'A' + 10),
        _ => None,
    }
}
