//! The words of a line.
use sst_blocks::Error;
use std::alloc::Allocator;

/// The first word, and the rest after the space.
pub fn split_word(line: &[u8]) -> (&[u8], &[u8]) {
    for (i, byte) in line.iter().enumerate() {
        if *byte == b' ' {
            return (&line[..i], &line[i + 1..]);
        }
    }
    (line, b"")
}

// A number with one more decimal digit.
fn with_digit(number: u64, byte: u8) -> u64 {
    let digit = u64::from(byte.saturating_sub(b'0'));
    number.saturating_mul(10).saturating_add(digit)
}

/// The decimal number of a word.
pub fn number_of(word: &[u8]) -> u64 {
    let mut number = 0;
    for byte in word {
        number = with_digit(number, *byte);
    }
    number
}

/// The decimal numbers of the words of a line.
pub fn numbers_of<A: Allocator>(alloc: A, line: &[u8]) -> Result<Vec<u64, A>, Error> {
    let mut numbers = Vec::new(alloc);
    let mut number = 0;
    for byte in line {
        if *byte == b' ' {
            numbers.push(number)?;
            number = 0;
        } else {
            number = with_digit(number, *byte);
        }
    }
    numbers.push(number)?;
    Ok(numbers)
}

fn digit_of(byte: u8) -> u8 {
    if byte < b'a' {
        byte.saturating_sub(b'0')
    } else {
        byte.saturating_sub(b'a').saturating_add(10)
    }
}

/// The bytes of a word in hex; none for `-`.
pub fn bytes_of<A: Allocator>(alloc: A, word: &[u8]) -> Result<Vec<u8, A>, Error> {
    let mut bytes = Vec::with_capacity(alloc, word.len() / 2)?;
    let mut high = None;
    for byte in word {
        let digit = digit_of(*byte);
        match high {
            None => high = Some(digit),
            Some(first) => {
                bytes.push(first.saturating_mul(16).saturating_add(digit))?;
                high = None;
            }
        }
    }
    Ok(bytes)
}
