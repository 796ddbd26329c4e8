//! What the text of an input is put together by.
//!
//! Nothing of the crate stands below; `scripts` and `traces` write by it.
use itoa::Buffer;
use std::alloc::AllocError;

/// Adds a word.
pub(crate) fn word(text: &mut Vec<u8>, word: &str) -> Result<(), AllocError> {
    text.extend_from_slice(word.as_bytes())?;
    Ok(())
}

/// Adds a number in decimal digits.
pub(crate) fn number(text: &mut Vec<u8>, number: u64) -> Result<(), AllocError> {
    let mut buffer = Buffer::new();
    text.extend_from_slice(buffer.format(number).as_bytes())?;
    Ok(())
}

/// The digits of a byte's halves.
const DIGITS: [u8; 16] = *b"0123456789abcdef";

/// Adds so many bytes in hexadecimal, which are those of the number again and again.
pub(crate) fn bytes(text: &mut Vec<u8>, number: u64, count: usize) -> Result<(), AllocError> {
    let mut digits = [0u8; 16];
    for (index, digit) in digits.iter_mut().enumerate() {
        *digit = DIGITS[(number >> (4 * index as u32 % 64) & 15) as usize];
    }
    for _eight in 0..count / 8 {
        text.extend_from_slice(&digits)?;
    }
    Ok(())
}
