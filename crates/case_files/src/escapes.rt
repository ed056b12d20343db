// How texts stand in case files and in what is printed.
//
// `\n`, `\t`, `\r`, `\\`, `\}` and `\xHH` are a byte each, `\N{..}` is what stands in the braces N times, and `\>` is as many
// tabs as `\>` came before.

use crate::stop::Stop;
use std::alloc::{AllocError, Global};
use std::fmt::Write;

/// The text of a case as far as it is read.
#[derive(Drop)]
struct Draft {
    bytes: Vec<u8>,
    /// How often `\>` came.
    tabs: u32,
}

/// The value of a hexadecimal digit.
fn digit_value(digit: u8) -> Option<u8> {
    match digit {
        b'0'..=b'9' => Some(digit - b'0'),
        b'a'..=b'f' => Some(digit - b'a' + 10),
        _ => None,
    }
}

fn byte_of(high: u8, low: u8) -> Option<u8> {
    let high = digit_value(high)?;
    let low = digit_value(low)?;
    high.checked_mul(16)?.checked_add(low)
}

fn push_tabs(draft: &mut Draft) -> Result<(), AllocError> {
    for _ in 0..draft.tabs {
        draft.bytes.push(b'\t')?;
    }
    draft.tabs = draft.tabs.saturating_add(1);
    Ok(())
}

/// Reads what stands behind a backslash, and answers the rest.
fn push_escape<'a>(draft: &mut Draft, text: &'a [u8]) -> Result<&'a [u8], Stop> {
    let (byte, rest) = match text {
        [b'>', rest @ ..] => {
            push_tabs(draft)?;
            return Ok(rest);
        }
        [b'x', high, low, rest @ ..] => (byte_of(*high, *low).ok_or(Stop::BadCase)?, rest),
        [b'n', rest @ ..] => (b'\n', rest),
        [b't', rest @ ..] => (b'\t', rest),
        [b'r', rest @ ..] => (b'\r', rest),
        [byte @ (b'\\' | b'}'), rest @ ..] => (*byte, rest),
        _ => return Err(Stop::BadCase),
    };
    draft.bytes.push(byte)?;
    Ok(rest)
}

/// Reads a byte or an escape, and answers the rest.
fn push_one<'a>(draft: &mut Draft, text: &'a [u8]) -> Result<&'a [u8], Stop> {
    match text {
        [b'\\', rest @ ..] => push_escape(draft, rest),
        [byte, rest @ ..] => {
            draft.bytes.push(*byte)?;
            Ok(rest)
        }
        [] => Ok(text),
    }
}

/// Reads what a repetition repeats, and answers what stands behind its closing brace.
fn push_once<'a>(draft: &mut Draft, text: &'a [u8]) -> Result<&'a [u8], Stop> {
    let mut rest = text;
    for _ in 0..text.len() {
        if let [b'}', after @ ..] = rest {
            return Ok(after);
        }
        rest = push_one(draft, rest)?;
    }
    Err(Stop::BadCase)
}

/// Reads a repetition from its number on, and answers the rest.
fn push_repeated<'a>(draft: &mut Draft, text: &'a [u8]) -> Result<&'a [u8], Stop> {
    let mut times = 0u32;
    let mut rest = text;
    for _ in 0..text.len() {
        match rest {
            [digit @ b'0'..=b'9', after @ ..] => {
                times = times
                    .saturating_mul(10)
                    .saturating_add(u32::from(*digit - b'0'));
                rest = after;
            }
            _ => break,
        }
    }
    let [b'{', repeated @ ..] = rest else {
        return Err(Stop::BadCase);
    };
    for _ in 0..times {
        rest = push_once(draft, repeated)?;
    }
    Ok(rest)
}

/// The bytes that a text with escapes stands for, between a beginning and an end.
pub fn bytes_of(alloc: Global, first: &str, text: &str, last: &str) -> Result<Vec<u8>, Stop> {
    let mut draft = Draft {
        bytes: first.as_bytes().to_vec(alloc)?,
        tabs: 0,
    };
    let mut rest = text.as_bytes();
    for _ in 0..text.len() {
        rest = match rest {
            [b'\\', repeated @ ..] if repeated.first().is_some_and(|c| c.is_ascii_digit()) => {
                push_repeated(&mut draft, repeated)?
            }
            _ => push_one(&mut draft, rest)?,
        };
    }
    draft.bytes.extend_from_slice(last.as_bytes())?;
    Ok(draft.bytes)
}

/// Writes a character of a text, a control character as its escape.
fn push_shown(out: &mut String, c: char) -> Result<(), AllocError> {
    match c {
        '\n' => out.push_str("\\n"),
        '\t' => out.push_str("\\t"),
        '\r' => out.push_str("\\r"),
        '\\' => out.push_str("\\\\"),
        '\'' => out.push_str("\\'"),
        '\0'..='\x1f' => write!(out, "\\x{:02x}", u32::from(c)),
        _ => out.push(c),
    }
}

/// Writes a text in quotes.
pub fn push_quoted(out: &mut String, text: &str) -> Result<(), AllocError> {
    out.push('\'')?;
    for c in text.chars() {
        push_shown(out, c)?;
    }
    out.push('\'')
}
