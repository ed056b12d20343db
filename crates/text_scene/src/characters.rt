// The characters of a file, and tests of the first and the last of a text.
ghost use Rattle.std.specs.Prelude.{◌≡◌, ◌≤◌, ◌+◌, ◌^◌, ◌==◌, if◌then◌else◌, None, Some, false, not, length, IfOk, drop, bytes_eq};
ghost use Rattle.std.specs.List.{list_all, prefix_len};
ghost use Rattle.std.specs.Str.{chars, IsAscii};
ghost use Rattle.gd_syntax.specs.Layout.{at, past_all, text_start};
ghost use Rattle.gd_syntax.specs.Spellings.{begins, is_blank, line_end_len, line_len};
ghost use Rattle.gd_syntax.specs.declared.fault.FaultKind.TheVariants.{BadBytes};
ghost use Rattle.scene_syntax.specs.Lines.{before, is_name, is_solid, last_passes};
ghost use Rattle.text_scene.specs.LineParts.{numbers};

use gd_syntax::{FaultKind, LoadFault, Name, Place, Text};
use gd_tokens::{is_blank, past};
use std::alloc::{AllocError, Global};

/// The characters of a text.
pub fn characters(alloc: Global, text: &str) -> Result<Vec<char>, AllocError>
    ensures value { IfOk result (λ cs. cs.items ≡ chars text.now) }
    ensures bound { IfOk result (λ cs. length cs.items ≤ length text.now) }
{
    text.chars().collect(alloc)
}

/// The text without a byte order mark at its start.
pub fn without_mark(text: &[char]) -> &[char]
    ensures value { result.now ≡ (if begins (λ c. c == 65279) text.now then drop 1 text.now else text.now) }
    ensures bound { length result.now ≤ length text.now }
{
    match text {
        [c, rest @ ..] => { if *c == '\u{feff}' { rest } else { text } }
        [] => text,
    }
}

/// The place behind a text.
fn place_behind(text: &[char]) -> Place
    requires { length text.now ≤ 2 ^ 30 }
    ensures { result ≡ past_all text_start text.now }
{
    let mut place = Place { line: 1, column: 1 };
    for c in text {
        place = past(place, *c);
    }
    place
}

/// The first byte that is no UTF-8, where this text is not the whole of its file.
pub fn bad_byte(is_whole: bool, text: &[char]) -> Option<LoadFault>
    requires { length text.now ≤ 2 ^ 30 }
    ensures { result ≡ (if is_whole then None else Some (at BadBytes (past_all text_start text.now))) }
{
    if is_whole {
        return None;
    }
    let kind = FaultKind::BadBytes;
    let place = place_behind(text);
    Some(LoadFault { kind, place })
}

fn begins_line_feed(text: &[char]) -> bool
    ensures { result ≡ begins (λ d. d == 10) text.now }
{
    match text {
        [c, ..] => *c == '\n',
        [] => false,
    }
}

/// How many characters of a line end begin the text.
pub fn line_end_len(text: &[char]) -> usize
    ensures value { result ≡ line_end_len text.now }
    ensures bound { result ≤ length text.now }
{
    match text {
        [c, rest @ ..] => {
            if *c == '\n' {
                1
            } else if *c == '\r' && begins_line_feed(rest) {
                2
            } else {
                0
            }
        }
        [] => 0,
    }
}

/// How many characters stand before the end of the line.
pub fn line_len(text: &[char]) -> usize
    ensures value { result ≡ line_len text.now }
    ensures bound { result ≤ length text.now }
{
    let mut n = 0;
    let mut rest = text;
    while let [_, after @ ..] = rest {
        if line_end_len(rest) > 0 {
            return n;
        }
        n += 1;
        rest = after;
    }
    n
}

/// The number of the line behind a text that begins on a line of this number.
pub fn number_behind(number: u32, text: &[char]) -> u32
    requires { number + length text.now ≤ 2 ^ 31 }
    ensures value { result ≡ numbers number text.now }
    ensures bound { result ≤ number + length text.now }
{
    let mut line = number;
    for c in text {
        if *c == '\n' {
            line += 1;
        }
    }
    line
}

/// How many characters stand before this one.
pub fn before(text: &[char], c: char) -> usize
    ensures value { result ≡ before c text.now }
    ensures bound { result ≤ length text.now }
{
    let mut n = 0;
    let mut rest = text;
    while let [d, after @ ..] = rest {
        if *d == c {
            return n;
        }
        n += 1;
        rest = after;
    }
    n
}

pub fn begins_with(text: &[char], c: char) -> bool
    ensures { result ≡ begins (λ d. d == c) text.now }
{
    match text {
        [d, ..] => *d == c,
        [] => false,
    }
}

pub fn begins_blank(text: &[char]) -> bool
    ensures { result ≡ begins is_blank text.now }
{
    match text {
        [c, ..] => is_blank(*c),
        [] => false,
    }
}

fn begins_solid(text: &[char]) -> bool
    ensures { result ≡ begins is_solid text.now }
{
    match text {
        [c, ..] => !is_blank(*c),
        [] => false,
    }
}

fn ends_solid(text: &[char]) -> bool
    ensures { result ≡ last_passes is_solid false text.now }
{
    let mut last = false;
    let mut rest = text;
    while let [c, after @ ..] = rest {
        last = !is_blank(*c);
        rest = after;
    }
    last
}

/// Whether all characters are blanks.
pub fn are_blank(text: &[char]) -> bool
    ensures { result ≡ list_all is_blank text.now }
{
    let mut rest = text;
    while let [c, after @ ..] = rest {
        if !is_blank(*c) {
            return false;
        }
        rest = after;
    }
    true
}

/// Whether the text is not empty, and has no blank at its start or end.
pub fn is_name(text: &[char]) -> bool
    ensures { result ≡ is_name text.now }
{
    begins_solid(text) && ends_solid(text)
}

/// A text of these characters.
pub fn copied(alloc: Global, text: &[char]) -> Result<Text, AllocError>
    ensures { IfOk result (λ t. t ≡ text.now) }
{
    let mut made = Text::new(alloc);
    for c in text {
        made.push(*c)?;
    }
    Ok(made)
}

/// A name of these characters.
pub fn name_of(alloc: Global, text: &[char]) -> Result<Name, AllocError>
    ensures { IfOk result (λ n. n ≡ text.now) }
{
    Ok(Name::from_text(copied(alloc, text)?))
}

/// Whether this is the word, whose characters are all ASCII.
pub fn is_word(text: &Text, word: &str) -> bool
    requires { IsAscii word.now }
    ensures { result ≡ bytes_eq text.now word.now }
{
    text.as_str() == word
}
