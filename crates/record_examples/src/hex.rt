// Bytes written in hexadecimal.
use std::alloc::{AllocError, Global};

// Kept: `to_digit` takes capital letters too, and its number is wider than a byte, so each would have to be narrowed.
fn digit(byte: u8) -> Option<u8> {
    match byte {
        b'0'..=b'9' => Some(byte - b'0'),
        b'a'..=b'f' => Some(byte - b'a' + 10),
        _ => None,
    }
}

// The bytes that a text spells, two digits each; all else between them is passed over.
pub fn bytes_of(heap: Global, text: &str) -> Result<Vec<u8>, AllocError> {
    let mut bytes = Vec::new(heap);
    let mut high = None;
    for byte in text.as_bytes() {
        let Some(value) = digit(*byte) else {
            continue;
        };
        match high {
            None => high = Some(value),
            Some(first) => {
                bytes.push(first.wrapping_mul(16).wrapping_add(value))?;
                high = None;
            }
        }
    }
    Ok(bytes)
}
