//! How tables write bytes: `|` stands for LF, `@C3@` for the byte C3, and `@2000*ab@` for `ab` 2,000 times.
use rel_io::{Dup, NoMemory};
use std::alloc::Global;

/// The bytes that a text of a table stands for. A sign that is no number stands for the byte 0.
pub fn bytes_of(alloc: Global, text: &str) -> Result<Vec<u8>, NoMemory> {
    let mut bytes = Vec::new(alloc);
    for (place, piece) in text.split('@').enumerate() {
        if place % 2 == 0 {
            push_plain(&mut bytes, piece)?;
        } else {
            push_sign(&mut bytes, piece)?;
        }
    }
    Ok(bytes)
}

/// Appends what stands between two `@`.
fn push_sign(bytes: &mut Vec<u8>, sign: &str) -> Result<(), NoMemory> {
    match sign.split_once('*') {
        Some((times, text)) => {
            for _ in 0..times.parse::<u32>().unwrap_or(0) {
                push_plain(bytes, text)?;
            }
        }
        None => bytes.push(u8::from_str_radix(sign, 16).unwrap_or(0))?,
    }
    Ok(())
}

/// Appends a text, with LF for each `|`.
fn push_plain(bytes: &mut Vec<u8>, text: &str) -> Result<(), NoMemory> {
    for byte in text.as_bytes() {
        bytes.push(if *byte == b'|' { b'\n' } else { *byte })?;
    }
    Ok(())
}

/// Appends a text.
pub fn push(out: &mut Vec<u8>, text: &[u8]) -> Result<(), NoMemory> {
    out.extend_from_slice(text)?;
    Ok(())
}

/// Whether a copy of the value is equal to it.
pub fn is_copied<T: Dup + PartialEq + Drop>(alloc: Global, value: &T) -> Result<bool, NoMemory> {
    let twin = value.copy(alloc)?;
    Ok(twin == *value)
}
