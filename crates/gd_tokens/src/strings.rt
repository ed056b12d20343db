// Strings.
ghost use Rattle.std.specs.Prelude.{◌≡◌, ◌+◌, ◌≤◌, ◌==◌, if◌then◌else◌, IsTrue, IfSome, length, option_map, option_to_list, ◌++◌, IfOk, OnOk};
ghost use Rattle.std.specs.List.{list_all};
ghost use Rattle.gd_syntax.specs.Spellings.{begins, code_escape, contents, escape_at, escaped, is_digit, is_scalar, line_end_len, piece_at, repeats, string_at};
ghost use Rattle.gd_tokens.specs.FoundParts.{found_of, found_size};
ghost use Rattle.gd_tokens.specs.StringParts.{contents_of, contents_size, piece_of};

use crate::found::Found;
use crate::numbers::{is_digit, number_value};
use gd_syntax::{FaultKind, Kind, Text};
use std::alloc::{AllocError, Global};

/// How many characters of a line end begin the text.
pub fn line_end_len(text: &[char]) -> usize
    ensures value { result ≡ line_end_len text.now }
    ensures bound { result ≤ length text.now }
{
    match text {
        [c, rest @ ..] => {
            if *c == '\n' {
                1
            } else if *c == '\r' && begins_line_feed(rest) {
                2
            } else {
                0
            }
        }
        [] => 0,
    }
}

fn begins_line_feed(text: &[char]) -> bool
    ensures { result ≡ begins (λ d. d == 10) text.now }
{
    match text {
        [c, ..] => *c == '\n',
        [] => false,
    }
}

/// Whether the text begins with so many of these quotes.
fn repeats(text: &[char], quote: char, count: usize) -> bool
    ensures value { result ≡ repeats quote count text.now }
    ensures bound { IsTrue result → count ≤ length text.now }
{
    let mut left = count;
    let mut rest = text;
    while left > 0 {
        let [c, after @ ..] = rest else {
            return false;
        };
        if *c != quote {
            return false;
        }
        rest = after;
        left -= 1;
    }
    true
}

/// A part of a string: what it gives, and how many characters it has.
#[derive(Clone, Copy)]
pub struct Piece {
    pub gives: Option<char>,
    pub size: usize,
}

/// The character that a letter behind `\` stands for.
fn escaped(c: char) -> Option<char>
    ensures { result ≡ escaped c }
{
    match c {
        'n' => Some('\n'),
        't' => Some('\t'),
        'r' => Some('\r'),
        'a' => Some('\x07'),
        'b' => Some('\x08'),
        'f' => Some('\x0c'),
        'v' => Some('\x0b'),
        '"' => Some('"'),
        '\'' => Some('\''),
        '\\' => Some('\\'),
        _ => None,
    }
}

fn are_digits(text: &[char], radix: u32) -> bool
    requires low { 2 ≤ radix }
    requires high { radix ≤ 36 }
    ensures { result ≡ list_all (is_digit radix) text.now }
{
    let mut rest = text;
    while let [c, after @ ..] = rest {
        if !is_digit(*c, radix) {
            return false;
        }
        rest = after;
    }
    true
}

/// The character of this code.
fn character(code: u64) -> Option<char>
    ensures { result ≡ (if is_scalar code then Some code else None) }
{
    let Ok(code) = u32::try_from(code) else {
        return None;
    };
    char::from_u32(code)
}

/// A letter and hexadecimal digits that write a character.
#[tactic(auto, unfolding(gd_syntax::specs::Spellings::code_escape))]
fn code_escape(text: &[char], n: usize) -> Option<Piece>
    requires { n ≤ 6 }
    ensures value { option_map piece_of result ≡ code_escape n text.now }
    ensures bound { IfSome result (λ piece. piece.size ≤ 2 + length text.now) }
    ensures some { IfSome result (λ piece. 1 ≤ piece.size) }
{
    if text.len() < n {
        return None;
    }
    let digits = &text[..n];
    if !are_digits(digits, 16) {
        return None;
    }
    let code = number_value(digits, 16)?;
    let c = character(code)?;
    Some(Piece {
        gives: Some(c),
        size: 2 + n,
    })
}

/// The escape whose characters behind `\` begin the text.
#[tactic(auto, unfolding(gd_syntax::specs::Spellings::escape_at))]
fn escape_at(text: &[char]) -> Option<Piece>
    ensures value { option_map piece_of result ≡ escape_at text.now }
    ensures bound { IfSome result (λ piece. piece.size ≤ 1 + length text.now) }
    ensures some { IfSome result (λ piece. 1 ≤ piece.size) }
{
    let [c, rest @ ..] = text else {
        return None;
    };
    if *c == 'u' {
        return code_escape(rest, 4);
    }
    if *c == 'U' {
        return code_escape(rest, 6);
    }
    let n = line_end_len(text);
    if n > 0 {
        return Some(Piece {
            gives: None,
            size: 1 + n,
        });
    }
    let Some(given) = escaped(*c) else {
        return None;
    };
    Some(Piece {
        gives: Some(given),
        size: 2,
    })
}

/// The character or escape that begins the text of a string.
#[tactic(auto, unfolding(gd_syntax::specs::Spellings::piece_at))]
fn piece_at(text: &[char]) -> Option<Piece>
    ensures value { option_map piece_of result ≡ piece_at text.now }
    ensures bound { IfSome result (λ piece. piece.size ≤ length text.now) }
    ensures some { IfSome result (λ piece. 1 ≤ piece.size) }
{
    let [c, rest @ ..] = text else {
        return None;
    };
    if *c == '\\' {
        return escape_at(rest);
    }
    Some(Piece {
        gives: Some(*c),
        size: 1,
    })
}

/// How a string goes on: its characters, and how many it takes to spell them and to close it; or a wrong escape so many
/// characters on; or nothing closes it.
#[derive(Drop)]
enum Contents {
    Closed(Text, usize),
    Broken(usize),
    Endless,
}

/// Puts what a part of a string gives at the end of a text.
fn extend(text: &mut Text, gives: Option<char>) -> Result<(), AllocError>
    ensures { OnOk result (text.new ≡ text.old ++ option_to_list gives) }
{
    match gives {
        Some(c) => text.push(c),
        None => Ok(()),
    }
}

/// The contents of a string that is closed by so many quotes.
fn read_contents(
    alloc: Global,
    quote: char,
    count: usize,
    text: &[char],
) -> Result<Contents, AllocError>
    requires { 1 ≤ count }
    ensures value { IfOk result (λ found. contents_of found ≡ contents quote count 0 text.now) }
    ensures bound { IfOk result (λ found. contents_size found ≤ length text.now) }
{
    let mut made = Text::new(alloc);
    let mut n = 0;
    let mut rest = text;
    while let [_, ..] = rest {
        if repeats(rest, quote, count) {
            return Ok(Contents::Closed(made, n + count));
        }
        let Some(piece) = piece_at(rest) else {
            return Ok(Contents::Broken(n));
        };
        extend(&mut made, piece.gives)?;
        let (_, after) = rest.split_at(piece.size);
        rest = after;
        n += piece.size;
    }
    Ok(Contents::Endless)
}

/// How many quotes a string begins with.
fn quote_count(quote: char, text: &[char]) -> usize
    requires { 1 ≤ length text.now }
    ensures value { result ≡ (if repeats quote 3 text.now then 3 else 1) }
    ensures bound { result ≤ length text.now }
    ensures some { 1 ≤ result }
{
    if repeats(text, quote, 3) { 3 } else { 1 }
}

/// The string that begins the text, with the quote that it begins with.
#[tactic(auto, unfolding(gd_syntax::specs::Spellings::string_at))]
pub fn string(alloc: Global, quote: char, text: &[char]) -> Result<Found, AllocError>
    requires { 1 ≤ length text.now }
    ensures value { IfOk result (λ found. found_of found ≡ string_at quote text.now) }
    ensures bound { IfOk result (λ found. found_size found ≤ length text.now) }
{
    let count = quote_count(quote, text);
    match read_contents(alloc, quote, count, &text[count..])? {
        Contents::Closed(value, n) => Ok(Found::Token(Kind::Text(value), count + n)),
        Contents::Broken(n) => Ok(Found::Wrong(FaultKind::BadToken, count + n)),
        Contents::Endless => Ok(Found::Unended),
    }
}
