//! A plain hash of texts, by which a slot is found.
//!
//! A client that finds two texts of one hash has them share a slot: one throws the other out, and no more. So the hash needs no
//! secret key.

/// What each chunk of a text multiplies its hash by: an odd number whose bits spread.
const SPREAD: u64 = 11400714819323198485;

/// Returns the hash of two texts.
pub fn hash_of_texts(first: &[u8], second: &[u8]) -> u64 {
    with_bytes(with_bytes(SPREAD, first), second)
}

/// Returns the hash of a number and a text.
pub fn hash_of_number(number: u64, text: &[u8]) -> u64 {
    with_bytes(with_chunk(SPREAD, number), text)
}

/// Returns a hash with the bytes of one more text: each eight of them, and the last eight, or what a shorter one makes.
fn with_bytes(hash: u64, bytes: &[u8]) -> u64 {
    let hash = hash.wrapping_add(bytes.len() as u64);
    match bytes.last_chunk::<8>() {
        None => with_chunk(hash, short_chunk(bytes)),
        Some(last) => with_chunk(with_chunks(hash, bytes), u64::from_le_bytes(*last)),
    }
}

/// Returns a hash with each eight bytes of a text.
fn with_chunks(hash: u64, bytes: &[u8]) -> u64 {
    let mut hash = hash;
    for chunk in bytes.as_chunks::<8>().0 {
        hash = with_chunk(hash, u64::from_le_bytes(*chunk));
    }
    hash
}

/// Returns a chunk of the bytes of a text of fewer than eight: its first four and its last four, which may overlap, or
/// each of still fewer.
fn short_chunk(bytes: &[u8]) -> u64 {
    match (bytes.first_chunk::<4>(), bytes.last_chunk::<4>()) {
        (Some(first), Some(last)) => {
            (u64::from(u32::from_le_bytes(*first)) << 32) | u64::from(u32::from_le_bytes(*last))
        }
        _ => packed(bytes),
    }
}

/// Returns the bytes of a text in one chunk, the last eight of them.
fn packed(bytes: &[u8]) -> u64 {
    let mut chunk = 0;
    for byte in bytes {
        chunk = (chunk << 8) | u64::from(*byte);
    }
    chunk
}

/// Returns a hash with one chunk more.
fn with_chunk(hash: u64, chunk: u64) -> u64 {
    let product = (hash ^ chunk).wrapping_mul(SPREAD);
    product ^ (product >> 32)
}

/// Returns a second hash, made of the first. Two that share a place by one mostly don't by the other.
pub(crate) fn spread(hash: u64) -> u64 {
    hash.wrapping_mul(SPREAD)
}
