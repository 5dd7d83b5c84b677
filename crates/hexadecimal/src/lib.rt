//! Hexadecimal text, read into bytes.
#![tactic(auto)]

ghost use Rattle.std.specs.Prelude.{◌≡◌};
ghost use Rattle.hexadecimal.specs.Spelling.{digit, blank};
ghost use Rattle.hexadecimal.specs.Readings.{Decodes};
ghost use Rattle.hexadecimal.specs.Laws.{ReadBack};
ghost use Rattle.hexadecimal.specs.declared.DecodeError.TheVariants.{NoMemory};

use std::alloc::AllocFailed;
use thiserror::Error;

/// Why a text is not read to its end.
#[derive(Clone, Copy, PartialEq, Eq, Debug, Error)]
pub enum DecodeError {
    /// In this column, counted from 1, stands no digit, or the text ends where a second digit is due.
    #[error("not hexadecimal at column {0}")]
    NotHex(usize),
    #[error("out of memory")]
    NoMemory,
}

impl<T: Drop> From<AllocFailed<T>> for DecodeError {
    ghost from_gives = { λ _ e. e ≡ NoMemory };

    fn from(_failed: AllocFailed<T>) -> DecodeError {
        DecodeError::NoMemory
    }
}

/// What a character says as a hexadecimal digit, in either case.
pub fn digit_value(c: u8) -> Option<u8>
    ensures { result ≡ digit c }
{
    match c {
        b'0'..=b'9' => Some(c - b'0'),
        b'a'..=b'f' => Some(c - b'a' + 10),
        b'A'..=b'F' => Some(c - b'A' + 10),
        _ => None,
    }
}

fn is_blank(c: u8) -> bool
    ensures { result ≡ blank c }
{
    matches!(c, b' ' | b'\t' | b'\r')
}

/// Appends the bytes that the text spells, two digits each; blanks may stand anywhere.
pub fn decode(text: &[u8], out: &mut Vec<u8>) -> Result<(), DecodeError>
    ensures { Decodes text.now out.old.items out.new.items result }
{
    let mut high = None;
    // The index is the column of a fault.
    for (i, c) in text.iter().enumerate() {
        if is_blank(*c) {
            continue;
        }
        let Some(digit) = digit_value(*c) else {
            return Err(DecodeError::NotHex(i + 1));
        };
        match high {
            None => high = Some(digit),
            Some(first) => {
                out.push(first * 16 + digit)?;
                high = None;
            }
        }
    }
    if high.is_some() {
        return Err(DecodeError::NotHex(text.len() + 1));
    }
    Ok(())
}

/// Bytes that are written in digits are read back as they were.
pub fn read_back()
    ensures { ReadBack }
{}
