// What a string says.
ghost use Rattle.std.specs.Prelude.{◌≡◌, ◌+◌, ◌<◌, ◌≤◌, ◌^◌, ◌*◌, ◌==◌, ◌++◌, if◌then◌else◌, IfSome, length, option_map, option_to_list, IfOk, OnOk};
ghost use Rattle.std.specs.List.{list_all};
ghost use Rattle.std.specs.Option.{SomeIff};
ghost use Rattle.std.specs.Char.{digit_value};
ghost use Rattle.gd_syntax.specs.Spellings.{closed, code_escape, contents, escape_at, escaped, is_digit, is_scalar, number_value, piece_at};
ghost use Rattle.scene_syntax.specs.Values as spec;
ghost use Rattle.text_scene.specs.EscapeParts.{piece_of};

use crate::characters::line_end_len;
use gd_syntax::Text;
use std::alloc::{AllocError, Global};

/// The least number that is too large.
const TOO_LARGE: u64 = 1 << 63;

/// A part of a string: what it gives, and how many characters it has.
#[derive(Clone, Copy)]
struct Piece {
    gives: Option<char>,
    size: usize,
}

/// The character that a letter behind `\` stands for.
fn escaped(c: char) -> Option<char>
    ensures { result ≡ escaped c }
{
    match c {
        'n' => Some('\n'),
        't' => Some('\t'),
        'r' => Some('\r'),
        'a' => Some('\x07'),
        'b' => Some('\x08'),
        'f' => Some('\x0c'),
        'v' => Some('\x0b'),
        '"' => Some('"'),
        '\'' => Some('\''),
        '\\' => Some('\\'),
        _ => None,
    }
}

/// The value of a digit or a letter, and 36 of any other character.
fn value_of(c: char) -> u32
    ensures value { result ≡ digit_value c }
    ensures bound { result ≤ 36 }
{
    c.to_digit(36).unwrap_or(36)
}

/// The number with a hexadecimal digit behind it, if it fits.
fn with_digit(value: u64, digit: u32) -> Option<u64>
    ensures value { SomeIff result (value * 16 + digit < 2 ^ 63) (value * 16 + digit) }
{
    let next = value.checked_mul(16)?.checked_add(u64::from(digit))?;
    if next < TOO_LARGE { Some(next) } else { None }
}

/// The number that the hexadecimal digits write, if it fits.
#[tactic(auto, unfolding(gd_syntax::specs::Spellings::number_value))]
fn number_value(digits: &[char]) -> Option<u64>
    ensures { SomeIff result (number_value 16 digits.now < 2 ^ 63) (number_value 16 digits.now) }
{
    let mut value = 0;
    let mut rest = digits;
    while let [c, after @ ..] = rest {
        if *c != '_' {
            let Some(next) = with_digit(value, value_of(*c)) else {
                return None;
            };
            value = next;
        }
        rest = after;
    }
    Some(value)
}

fn is_digit(c: char) -> bool
    ensures { result ≡ is_digit 16 c }
{
    c.to_digit(16).is_some()
}

fn are_digits(text: &[char]) -> bool
    ensures { result ≡ list_all (is_digit 16) text.now }
{
    let mut rest = text;
    while let [c, after @ ..] = rest {
        if !is_digit(*c) {
            return false;
        }
        rest = after;
    }
    true
}

/// The character of this code.
fn character(code: u64) -> Option<char>
    ensures { result ≡ (if is_scalar code then Some code else None) }
{
    let Ok(code) = u32::try_from(code) else {
        return None;
    };
    char::from_u32(code)
}

/// A letter and hexadecimal digits that write a character.
#[tactic(auto, unfolding(gd_syntax::specs::Spellings::code_escape))]
fn code_escape(text: &[char], n: usize) -> Option<Piece>
    requires { n ≤ 6 }
    ensures value { option_map piece_of result ≡ code_escape n text.now }
    ensures bound { IfSome result (λ piece. piece.size ≤ 2 + length text.now) }
    ensures some { IfSome result (λ piece. 1 ≤ piece.size) }
{
    if text.len() < n {
        return None;
    }
    let digits = &text[..n];
    if !are_digits(digits) {
        return None;
    }
    let code = number_value(digits)?;
    let c = character(code)?;
    Some(Piece {
        gives: Some(c),
        size: 2 + n,
    })
}

/// The escape whose characters behind `\` begin the text.
#[tactic(auto, unfolding(gd_syntax::specs::Spellings::escape_at))]
fn escape_at(text: &[char]) -> Option<Piece>
    ensures value { option_map piece_of result ≡ escape_at text.now }
    ensures bound { IfSome result (λ piece. piece.size ≤ 1 + length text.now) }
    ensures some { IfSome result (λ piece. 1 ≤ piece.size) }
{
    let [c, rest @ ..] = text else {
        return None;
    };
    if *c == 'u' {
        return code_escape(rest, 4);
    }
    if *c == 'U' {
        return code_escape(rest, 6);
    }
    let n = line_end_len(text);
    if n > 0 {
        return Some(Piece {
            gives: None,
            size: 1 + n,
        });
    }
    let Some(given) = escaped(*c) else {
        return None;
    };
    Some(Piece {
        gives: Some(given),
        size: 2,
    })
}

/// The character or escape that begins the text of a string.
#[tactic(auto, unfolding(gd_syntax::specs::Spellings::piece_at))]
fn piece_at(text: &[char]) -> Option<Piece>
    ensures value { option_map piece_of result ≡ piece_at text.now }
    ensures bound { IfSome result (λ piece. piece.size ≤ length text.now) }
    ensures some { IfSome result (λ piece. 1 ≤ piece.size) }
{
    let [c, rest @ ..] = text else {
        return None;
    };
    if *c == '\\' {
        return escape_at(rest);
    }
    Some(Piece {
        gives: Some(*c),
        size: 1,
    })
}

/// Puts what a part of a string gives at the end of a text.
fn extend(text: &mut Text, gives: Option<char>) -> Result<(), AllocError>
    ensures { OnOk result (text.new ≡ text.old ++ option_to_list gives) }
{
    match gives {
        Some(c) => text.push(c),
        None => Ok(()),
    }
}

/// What was read up to a closing quote, where the string ends there.
fn closed_at(made: Text, n: usize, size: usize) -> Option<Text>
    ensures { result ≡ spec.whole_string size (closed made n) }
{
    if n == size { Some(made) } else { None }
}

/// What a string says whose text behind the quote is this, where it ends in the closing quote.
fn read_string(alloc: Global, text: &[char]) -> Result<Option<Text>, AllocError>
    ensures { IfOk result (λ found. found ≡ spec.whole_string (length text.now) (contents 34 1 0 text.now)) }
{
    let mut made = Text::new(alloc);
    let mut n = 0;
    let mut rest = text;
    while let [c, ..] = rest {
        if *c == '"' {
            return Ok(closed_at(made, n + 1, text.len()));
        }
        let Some(piece) = piece_at(rest) else {
            return Ok(None);
        };
        extend(&mut made, piece.gives)?;
        let (_, after) = rest.split_at(piece.size);
        rest = after;
        n += piece.size;
    }
    Ok(None)
}

/// What a value says that is one string.
#[tactic(auto, unfolding(scene_syntax::specs::Values::string_value))]
pub fn string_value(alloc: Global, text: &[char]) -> Result<Option<Text>, AllocError>
    ensures { IfOk result (λ found. found ≡ spec.string_value text.now) }
{
    match text {
        [c, rest @ ..] => {
            if *c == '"' {
                read_string(alloc, rest)
            } else {
                Ok(None)
            }
        }
        [] => Ok(None),
    }
}
