// Makes texts: repeated, counted through, and random.

use rand_core::utils::NextWord;
use rand_pcg::Pcg32;
use std::alloc::{AllocError, Global};

/// A text so many times.
pub fn repeated(alloc: Global, part: &str, times: usize) -> Result<String, AllocError> {
    let mut text = String::new(alloc);
    for _ in 0..times {
        text.push_str(part)?;
    }
    Ok(text)
}

/// The text of so many letters of an alphabet that a number represents: its digits choose the letters, the last one
/// first.
pub fn numbered(
    alloc: Global,
    alphabet: &[&str],
    length: usize,
    number: usize,
) -> Result<String, AllocError> {
    let mut text = String::new(alloc);
    let mut rest = number;
    for _ in 0..length {
        if !alphabet.is_empty() {
            text.push_str(alphabet[rest % alphabet.len()])?;
            rest /= alphabet.len();
        }
    }
    Ok(text)
}

/// A random text of at most `most` random pieces.
pub fn random(
    alloc: Global,
    source: &mut Pcg32,
    pieces: &[&str],
    most: u32,
) -> Result<String, AllocError> {
    let mut text = String::new(alloc);
    if pieces.is_empty() || most == 0 {
        return Ok(text);
    }
    let count = 1 + source.next_word() % most;
    for _ in 0..count {
        text.push_str(pieces[source.next_word() as usize % pieces.len()])?;
    }
    Ok(text)
}
