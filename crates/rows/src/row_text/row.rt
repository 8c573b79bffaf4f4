//! A row: the name of a call and its arguments.

ghost use Rattle.std.specs.Prelude.{◌<◌};

use std::alloc::{AllocError, Global};

/// The words of a row: the name of a call, and its arguments.
#[derive(Drop)]
pub struct Row<'a> {
    words: Vec<&'a str>,
}

impl<'a> Row<'a> {
    /// The row of a line, in which a blank stands between two words.
    pub fn of(alloc: Global, line: &'a str) -> Result<Row<'a>, AllocError> {
        let mut words = Vec::new(alloc);
        for word in line.split(' ') {
            words.push(word)?;
        }
        Ok(Row { words })
    }

    /// How many words there are, the call's name among them.
    pub fn len(&self) -> usize {
        self.words.len()
    }

    /// The word of this number as it stands, where the call's name has the number 0; the empty text where there is none.
    pub fn word(&self, number: usize) -> &'a str {
        self.words.get(number).copied().unwrap_or("")
    }

    /// The word as a number; 0 where it is none.
    pub fn number(&self, place: usize) -> u64 {
        self.word(place).parse::<u64>().unwrap_or(0)
    }

    /// The numbers of the word, with a comma between two of them.
    pub fn numbers(&self, alloc: Global, place: usize) -> Result<Vec<u16>, AllocError> {
        let mut numbers = Vec::new(alloc);
        for word in self.word(place).split(',') {
            if let Ok(number) = word.parse::<u16>() {
                numbers.push(number)?;
            }
        }
        Ok(numbers)
    }

    /// The bytes that the word writes: parts, with a `&` between two of them. A part is a text, which may have
    /// `N*` before it, for as many of it. In a text a `%` and two hexadecimal digits are the byte of that value.
    pub fn bytes(&self, alloc: Global, place: usize) -> Result<Vec<u8>, AllocError> {
        let mut bytes = Vec::new(alloc);
        for part in self.word(place).split('&') {
            match part.split_once('*') {
                Some((count, text)) => {
                    let text = unescaped(alloc, text)?;
                    for _ in 0..count.parse::<u32>().unwrap_or(0) {
                        bytes.extend_from_slice(text.as_slice())?;
                    }
                }
                None => bytes.extend_from_slice(unescaped(alloc, part)?.as_slice())?,
            }
        }
        Ok(bytes)
    }
}

fn unescaped(alloc: Global, text: &str) -> Result<Vec<u8>, AllocError> {
    let mut bytes = Vec::new(alloc);
    let mut rest = text.as_bytes();
    for _ in 0..text.len() {
        match rest {
            [] => break,
            [b'%', high, low, behind @ ..] => {
                bytes.push(digit(*high) * 16 + digit(*low))?;
                rest = behind;
            }
            [first, behind @ ..] => {
                bytes.push(*first)?;
                rest = behind;
            }
        }
    }
    Ok(bytes)
}

fn digit(symbol: u8) -> u8
    ensures { result < 16 }
{
    match symbol {
        b'0'..=b'9' => symbol - b'0',
        b'a'..=b'f' => symbol - b'a' + 10,
        _ => 0,
    }
}

/// What a call gives, where it is one of these.
pub fn given(answer: Result<String, AllocError>) -> Result<Option<String>, AllocError> {
    match answer {
        Ok(answer) => Ok(Some(answer)),
        Err(error) => Err(error),
    }
}
