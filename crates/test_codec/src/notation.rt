//! Bytes, written as words.

use std::alloc::Global;
use std::test::Fail;

fn push_number(bytes: &mut Vec<u8>, digits: &str) -> Result<(), Fail> {
    let number = digits.parse::<u64>().ok().ok_or("no number")?;
    bytes.extend_from_slice(&number.to_be_bytes())?;
    Ok(())
}

fn push_short(bytes: &mut Vec<u8>, digits: &str) -> Result<(), Fail> {
    let number = digits.parse::<u32>().ok().ok_or("no number")?;
    bytes.extend_from_slice(&number.to_be_bytes())?;
    Ok(())
}

fn push_op(bytes: &mut Vec<u8>, digits: &str) -> Result<(), Fail> {
    let number = digits.parse::<u16>().ok().ok_or("no number")?;
    bytes.extend_from_slice(&number.to_be_bytes())?;
    Ok(())
}

fn push_text(bytes: &mut Vec<u8>, text: &str) -> Result<(), Fail> {
    bytes.extend_from_slice(&(text.len() as u64).to_be_bytes())?;
    bytes.extend_from_slice(text.as_bytes())?;
    Ok(())
}

fn push_byte(bytes: &mut Vec<u8>, digits: &str) -> Result<(), Fail> {
    let byte = digits.parse::<u8>().ok().ok_or("no byte")?;
    bytes.push(byte)?;
    Ok(())
}

fn push_word(bytes: &mut Vec<u8>, word: &str) -> Result<(), Fail> {
    if let Some(text) = word.strip_prefix(":") {
        return push_text(bytes, text);
    }
    if let Some(digits) = word.strip_prefix("n") {
        return push_number(bytes, digits);
    }
    if let Some(digits) = word.strip_prefix("w") {
        return push_short(bytes, digits);
    }
    if let Some(digits) = word.strip_prefix("h") {
        return push_op(bytes, digits);
    }
    if let Some(digits) = word.strip_prefix("x") {
        bytes.push(3)?;
        return push_number(bytes, digits);
    }
    push_byte(bytes, word)
}

/// The bytes of words with a space between them: `7` is a byte, `h7` a number of two bytes, `w7` one of four, `n7` one of
/// eight, `:car` the length of a text and the text, and `x7` the name with the number 7 of a program.
pub fn bytes_of(alloc: Global, words: &str) -> Result<Vec<u8>, Fail> {
    let mut bytes = Vec::new(alloc);
    for word in words.split(" ") {
        if !word.is_empty() {
            push_word(&mut bytes, word)?;
        }
    }
    Ok(bytes)
}
