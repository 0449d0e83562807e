//! Bytes from hexadecimal.
use std::alloc::{AllocError, Global};

/// The bytes that the capital digits of a text give. Other characters are passed over.
pub fn bytes_of(heap: Global, text: &str) -> Result<Vec<u8>, AllocError> {
    let mut bytes = Vec::new(heap);
    let mut first = None;
    // in one pass: a list of the digits beside the bytes would take twice their room again
    for digit in text.bytes().filter_map(digit_value) {
        match first.take() {
            None => first = Some(digit),
            Some(high) => bytes.push(high << 4 | digit)?,
        }
    }
    Ok(bytes)
}

// By hand, since the library's to_digit takes small letters too.
fn digit_value(character: u8) -> Option<u8> {
    match character {
        b'0'..=b'9' => Some(character - b'0'),
        b'A'..=b'F' => Some(character - b'A' + 10),
        _ => None,
    }
}
