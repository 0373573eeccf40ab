//! The offset of a refusal in a text.

use json::{Reader, Scratch, Token};
use std::alloc::{AllocError, Global};

/// Returns the offset after the first `tokens` tokens, where the next one begins.
pub fn offset_after(alloc: Global, text: &str, tokens: usize) -> Result<usize, AllocError> {
    let mut scratch = Scratch::new(alloc);
    let mut reader = Reader::new(text, &mut scratch)?;
    for _index in 0..tokens {
        if reader.next().is_none() {
            break;
        }
    }
    Ok(reader.offset())
}

/// The most lists and maps that may be around a part.
const MOST_AROUND: usize = 127;

/// Returns the offset of the first part of data that is in more lists and maps than allowed. The
/// tokens inside a link or bytes are not parts.
pub fn offset_inside(alloc: Global, text: &str) -> Result<usize, AllocError> {
    let mut scratch = Scratch::new(alloc);
    let mut reader = Reader::new(text, &mut scratch)?;
    let mut open: usize = 0;
    let mut is_reserved = false;
    for _index in 0..text.len() {
        let offset = reader.offset();
        match reader.next() {
            None => return Ok(offset),
            Some(Token::EndObject | Token::EndArray) => {
                open = open.saturating_sub(1);
                is_reserved = is_reserved && open > MOST_AROUND;
            }
            Some(Token::Key("/")) if open > MOST_AROUND => is_reserved = true,
            Some(_) if open > MOST_AROUND && !is_reserved => return Ok(offset),
            Some(Token::BeginObject | Token::BeginArray) => open = open.saturating_add(1),
            Some(_) => {}
        }
    }
    Ok(reader.offset())
}
