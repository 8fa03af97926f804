//! The arguments.

use std::alloc::{AllocError, Global};
use std::env::FillError;
use std::rt::Env;

// So many bytes of a word are taken at first, and so many at most: Linux passes 131,072.
const ROOM: usize = 4096;

const MOST: usize = 1 << 20;

/// The arguments, the name of the program first. Each byte that is no part of UTF-8 is a NUL and
/// two hexadecimal digits; no argument has a NUL of its own.
///
/// # Errors
///
/// There was no memory.
pub(crate) fn words_of(rt: &HostRuntime) -> Result<Vec<String>, AllocError> {
    let mut words = Vec::new(rt.alloc());
    for place in 0..usize::MAX {
        match word_at(rt, place)? {
            Some(word) => words.push(word)?,
            None => break,
        }
    }
    Ok(words)
}

// The word at a place.
fn word_at(rt: &HostRuntime, place: usize) -> Result<Option<String>, AllocError> {
    let mut room = ROOM;
    for _ in 0..16 {
        let mut bytes = vec![in rt.alloc(); 0u8; room]?;
        match rt.arg(place, &mut bytes) {
            Ok(count) => return Ok(Some(text_of(rt.alloc(), bytes.get(..count).unwrap_or(&[]))?)),
            Err(FillError::NotPresent) => return Ok(None),
            Err(FillError::TooLong) => room = room.saturating_mul(2).min(MOST),
        }
    }
    Ok(None)
}

// The text of bytes.
fn text_of(alloc: Global, bytes: &[u8]) -> Result<String, AllocError> {
    let mut text = String::new(alloc);
    for chunk in bytes.utf8_chunks() {
        text.push_str(chunk.valid())?;
        for byte in chunk.invalid() {
            text.push_str(format!(in alloc; "\0{byte:02x}")?.as_str())?;
        }
    }
    Ok(text)
}

/// Whether an argument had bytes that are no text.
pub(crate) fn is_broken(word: &str) -> bool {
    word.as_bytes().contains(&0)
}
