//! How rows write bytes.

use std::alloc::AllocError;
use std::fmt::Write;

// A number with what stands before and behind it.
fn number(text: &mut String, before: &str, number: u64, behind: &str) -> Result<(), AllocError> {
    write!(text, "{before}{number}{behind}")
}

fn escaped(text: &mut String, byte: u8) -> Result<(), AllocError> {
    write!(text, "%{byte:02x}")
}

fn symbol(text: &mut String, byte: u8) -> Result<(), AllocError> {
    if byte.is_ascii_graphic() && !b"%&*".contains(&byte) {
        text.push(char::from(byte))
    } else {
        escaped(text, byte)
    }
}

fn symbols(text: &mut String, bytes: &[u8]) -> Result<(), AllocError> {
    for byte in bytes {
        symbol(text, *byte)?;
    }
    Ok(())
}

// Bytes of one value; four and more of them are a part with their count.
fn run_word(text: &mut String, run: &[u8]) -> Result<(), AllocError> {
    if run.len() < 4 {
        return symbols(text, run);
    }
    number(text, "&", run.len() as u64, "*")?;
    symbols(text, &run[..1])?;
    text.push_str("&")
}

/// Adds the size of the bytes and the bytes, as `Row::bytes` reads them, each behind a blank.
pub fn bytes_words(text: &mut String, bytes: &[u8]) -> Result<(), AllocError> {
    number(text, " ", bytes.len() as u64, " ")?;
    for run in bytes.chunk_by(|byte, next| byte == next) {
        run_word(text, run)?;
    }
    Ok(())
}
