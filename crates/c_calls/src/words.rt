//! The arguments of a conversion, as texts.

ghost use Rattle.std.specs.Prelude.{◌≡◌, ◌↔◌, All, IfOk, IsTrue, IsUtf8, map};
ghost use Rattle.std.specs.String.{string_bytes};

use std::alloc::{AllocError, Global};
use std::str::from_utf8;

// Whether the word is a text.
fn is_text(word: &[u8]) -> bool
    ensures { IsTrue result ↔ IsUtf8 word.now }
{
    match from_utf8(word) {
        Ok(_) => true,
        Err(_) => false,
    }
}

/// Whether each argument is a text, in UTF-8.
pub fn are_texts(words: &[&[u8]]) -> bool
    ensures { IsTrue result ↔ All IsUtf8 (map (λ word. word.now) words.now) }
{
    for word in words {
        if !is_text(word) {
            return false;
        }
    }
    true
}

/// The arguments as texts.
///
/// # Errors
///
/// `AllocError` if there is no memory for them.
pub fn texts_of(alloc: Global, words: &[&[u8]]) -> Result<Vec<String>, AllocError>
    requires { All IsUtf8 (map (λ word. word.now) words.now) }
    ensures { IfOk result (λ texts. map string_bytes texts.items ≡ map
        (λ word. word.now) words.now) }
{
    let mut texts = Vec::new(alloc);
    for word in words {
        match from_utf8(word) {
            Ok(text) => texts.push(String::from_str(alloc, text)?)?,
            Err(_) => unreachable!(),
        }
    }
    Ok(texts)
}
