//! The subjects of routes.
ghost use Rattle.std.specs.Prelude.{◌≡◌, ◌++◌, ◌∷◌, [], List, IfOk, OnOk};
ghost use Rattle.std.specs.Fmt.{decimal};
ghost use Rattle.subjects.specs.Subject.{Token, same_token, text_of};
ghost use Rattle.subjects.specs.Equal.{same_subject};
ghost use Rattle.service_exporter.specs.service_subjects.Names.{hex_of, is_on, number_of, route_subject};

use base::{NoMemory, Pieces, number_of};
use hex::encode_to_slice;
use itoa::Buffer;
use std::alloc::Global;
use subjects::{Subject, SubjectRef};

/// How many bytes the longest text of a route's subject has.
const LONGEST: usize = 41;

/// The hexadecimal digits of a word.
fn hex_of(word: u64) -> [u8; 16]
    ensures { result ≡ hex_of word }
{
    let mut text = [0u8; 16];
    match encode_to_slice(word.to_be_bytes(), &mut text) {
        Ok(()) => text,
        Err(_) => unreachable!(),
    }
}

/// Appends a number in decimal digits.
fn write_number(out: &mut Vec<u8>, number: u64) -> Result<(), NoMemory>
    ensures { OnOk result (out.new.items ≡ out.old.items ++ decimal number) }
{
    let mut buffer = Buffer::new();
    out.extend_from_slice(buffer.format(number).as_bytes())?;
    Ok(())
}

/// The text of a route's subject.
fn route_text(alloc: Global, word: u64, number: u64) -> Result<Vec<u8>, NoMemory>
    ensures { IfOk result (λ text. text.items ≡ text_of (route_subject word number)) }
{
    let mut text = Vec::with_capacity(alloc, LONGEST)?;
    text.extend_from_slice(b"_R_.")?;
    text.extend_from_slice(hex_of(word).as_slice())?;
    text.extend_from_slice(b".")?;
    write_number(&mut text, number)?;
    Ok(text)
}

/// The subject of the route with this word and number: `_R_`, the word's 16 lower hexadecimal digits and the number in
/// decimal digits, as tokens. `NoMemory` where memory could not be had.
pub fn route_subject(alloc: Global, word: u64, number: u64) -> Result<Subject, NoMemory>
    ensures { IfOk result (λ subject. subject ≡ route_subject word number) }
{
    let text = route_text(alloc, word, number)?;
    let subject = Subject::from_valid(alloc, text)?;
    Ok(subject)
}

/// Whether a token has a number's decimal digits.
fn is_decimal(token: &[u8], number: u64) -> bool
    ensures { result ≡ same_token token.now (decimal number) }
{
    let mut buffer = Buffer::new();
    token == buffer.format(number).as_bytes()
}

/// Whether a subject is that of the route with this number and word.
pub fn is_on(subject: &SubjectRef<'_>, number: u64, word: u64) -> bool
    ensures { result ≡ is_on subject.now number word }
{
    let mut tokens = subject.tokens();
    match tokens.next_piece() {
        None => false,
        Some(mark) => same_token(mark, b"_R_") && are_hex_and_number(tokens, number, word),
    }
}

/// Whether two tokens have the same bytes.
fn same_token(a: &[u8], b: &[u8]) -> bool
    ensures { result ≡ same_token a.now b.now }
{
    a == b
}

/// Whether a word's hexadecimal digits and a number's decimal digits are left of a subject.
fn are_hex_and_number(mut tokens: Pieces<'_>, number: u64, word: u64) -> bool
    ensures { result ≡ same_subject tokens.entry (hex_of word ∷ decimal number ∷ []) }
{
    match tokens.next_piece() {
        None => false,
        Some(hex) => same_token(hex, hex_of(word).as_slice()) && is_number(tokens, number),
    }
}

/// Whether a number's decimal digits are left of a subject.
fn is_number(mut tokens: Pieces<'_>, number: u64) -> bool
    ensures { result ≡ same_subject tokens.entry (decimal number ∷ []) }
{
    match tokens.next_piece() {
        None => false,
        Some(digits) => is_decimal(digits, number) && is_end(tokens),
    }
}

/// Whether nothing is left of a subject.
fn is_end(mut tokens: Pieces<'_>) -> bool
    ensures { result ≡ same_subject tokens.entry [] }
{
    match tokens.next_piece() {
        None => true,
        Some(_) => false,
    }
}

/// The number that a subject's third token writes.
pub fn number_in(subject: &SubjectRef<'_>) -> Option<u64>
    ensures { (mark hex digits : Token) → subject.now ≡ mark ∷ hex ∷ digits ∷ [] → result ≡ number_of digits }
{
    let mut tokens = subject.tokens();
    match tokens.next_piece() {
        None => None,
        Some(_) => number_behind(tokens),
    }
}

/// The number that the second of the tokens that are left writes.
fn number_behind(mut tokens: Pieces<'_>) -> Option<u64>
    ensures { (hex digits : Token) → tokens.entry ≡ hex ∷ digits ∷ [] → result ≡ number_of digits }
{
    match tokens.next_piece() {
        None => None,
        Some(_) => first_number(tokens),
    }
}

/// The number that the first of the tokens that are left writes.
fn first_number(mut tokens: Pieces<'_>) -> Option<u64>
    ensures { (digits : Token) (more : List Token) → tokens.entry ≡ digits ∷ more → result ≡ number_of digits }
{
    match tokens.next_piece() {
        None => None,
        Some(digits) => number_of(digits),
    }
}
