//! Members of a JSON object.
use base::NoMemory;
use json::Writer;
use std::alloc::Global;

/// Appends a name and a text. What isn't UTF-8 is replaced by U+FFFD.
pub(crate) fn put_text(
    alloc: Global,
    out: &mut Writer,
    name: &str,
    text: &[u8],
) -> Result<(), NoMemory> {
    out.key(name)?;
    put_item(alloc, out, text)
}

/// Appends a text.
pub(crate) fn put_item(alloc: Global, out: &mut Writer, text: &[u8]) -> Result<(), NoMemory> {
    let shown = String::from_utf8_lossy(alloc, text)?;
    out.string(shown.as_str())?;
    Ok(())
}

/// Appends a name and a word.
pub(crate) fn put_word(out: &mut Writer, name: &str, word: &str) -> Result<(), NoMemory> {
    out.key(name)?;
    out.string(word)?;
    Ok(())
}

/// Appends a name and a number.
pub(crate) fn put_number(out: &mut Writer, name: &str, number: u64) -> Result<(), NoMemory> {
    out.key(name)?;
    out.u64(number)?;
    Ok(())
}
