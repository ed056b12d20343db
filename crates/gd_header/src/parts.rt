// What stands at a place of a header.
ghost use Rattle.std.specs.Prelude.{◌≡◌, ◌==◌, ◌≤◌, ◌+◌, ◌||◌, false, drop, length, IfSome};
ghost use Rattle.std.specs.List.{prefix_len};
ghost use Rattle.std.specs.Str.{chars};
ghost use Rattle.gd_syntax.specs.Header.{is_blank_line, is_class_name, is_header_line, part_at, quoted_len, string_at, word_part};
ghost use Rattle.gd_syntax.specs.Spellings.{begins, is_blank, line_end_len, line_len, repeats};
ghost use Rattle.gd_header.specs.Parts.{part_of, size_of};

use crate::cursor::{is_at_end, skip, split_first};
use crate::words::{is_spelling, split_word};
use gd_tokens::{is_blank, is_quote};

/// What stands at a place, with the number of its characters.
#[derive(Clone, Copy)]
pub enum Part {
    /// A comment, a string, a word or another character.
    Passed(usize),
    /// The word `class_name`.
    Keyword,
    /// A string that nothing closes.
    Unended,
}

fn begins_line_feed(text: &str) -> bool
    ensures { result ≡ begins (λ d. d == 10) (chars text.now) }
{
    match split_first(text) {
        Some((c, _)) => c == '\n',
        None => false,
    }
}

/// How many characters of a line end begin the text.
fn line_end_len(text: &str) -> usize
    ensures { result ≡ line_end_len (chars text.now) }
{
    let Some((c, rest)) = split_first(text) else {
        return 0;
    };
    if c == '\n' {
        1
    } else if c == '\r' && begins_line_feed(rest) {
        2
    } else {
        0
    }
}

/// How many blanks begin the text.
pub fn blanks_len(text: &str) -> usize
    ensures value { result ≡ prefix_len is_blank (chars text.now) }
    ensures bound { result ≤ length text.now }
{
    let mut n = 0;
    let mut rest = text;
    while let Some((c, after)) = split_first(rest) {
        if !is_blank(c) {
            return n;
        }
        n += 1;
        rest = after;
    }
    n
}

/// How many characters stand before the end of the line.
fn line_len(text: &str) -> usize
    ensures value { result ≡ line_len (chars text.now) }
    ensures bound { result ≤ length text.now }
{
    let mut n = 0;
    let mut rest = text;
    while let Some((_, after)) = split_first(rest) {
        if line_end_len(rest) > 0 {
            return n;
        }
        n += 1;
        rest = after;
    }
    n
}

/// Whether the text begins with so many of these quotes.
fn repeats(text: &str, quote: char, count: usize) -> bool
    ensures { result ≡ repeats quote count (chars text.now) }
{
    let mut left = count;
    let mut rest = text;
    while left > 0 {
        let Some((c, after)) = split_first(rest) else {
            return false;
        };
        if c != quote {
            return false;
        }
        rest = after;
        left -= 1;
    }
    true
}

/// How many characters there are from inside a string up to the end of the quotes that close it.
#[tactic(auto, unfolding(gd_syntax::specs::Header::quoted_len))]
fn quoted_len(text: &str, quote: char, count: usize) -> Option<usize>
    requires { count ≤ 3 }
    ensures value { result ≡ quoted_len quote count false (chars text.now) }
    ensures bound { IfSome result (λ n. n ≤ length text.now + count) }
{
    let mut n = 0;
    let mut escaped = false;
    let mut rest = text;
    while let Some((c, after)) = split_first(rest) {
        if !escaped && repeats(rest, quote, count) {
            return Some(n + count);
        }
        escaped = !escaped && c == '\\';
        n += 1;
        rest = after;
    }
    None
}

/// Whether the line that begins the text has only blanks.
fn is_blank_line(text: &str) -> bool
    ensures { result ≡ is_blank_line (chars text.now) }
{
    let rest = skip(text, blanks_len(text));
    is_at_end(rest) || line_end_len(rest) > 0
}

fn begins_comment_or_annotation(text: &str) -> bool
    ensures { result ≡ begins (λ c. c == 35 || c == 64) (chars text.now) }
{
    match split_first(text) {
        Some((c, _)) => c == '#' || c == '@',
        None => false,
    }
}

fn is_class_name(word: &str) -> bool
    ensures { result ≡ is_class_name (chars word.now) }
{
    is_spelling("class_name", word)
}

/// Whether the line that begins the text is a header line.
pub fn is_header_line(text: &str) -> bool
    ensures { result ≡ is_header_line (chars text.now) }
{
    let (word, _) = split_word(text);
    is_blank_line(text)
        || begins_comment_or_annotation(text)
        || is_spelling("extends", word)
        || is_class_name(word)
}

/// The string that begins the text.
fn string(text: &str, quote: char) -> Part
    ensures { part_of result ≡ string_at quote (chars text.now) }
{
    let count = if repeats(text, quote, 3) { 3 } else { 1 };
    match quoted_len(skip(text, count), quote, count) {
        Some(n) => Part::Passed(count + n),
        None => Part::Unended,
    }
}

/// How many characters the text has.
fn length(text: &str) -> usize
    ensures { result ≡ length (chars text.now) }
{
    let mut n = 0;
    let mut rest = text;
    while let Some((_, after)) = split_first(rest) {
        n += 1;
        rest = after;
    }
    n
}

fn word(word: &str) -> Part
    ensures { part_of result ≡ word_part (chars word.now) }
{
    if is_class_name(word) {
        Part::Keyword
    } else {
        Part::Passed(length(word))
    }
}

/// What begins the text.
#[tactic(auto, unfolding(gd_syntax::specs::Header::part_at))]
pub fn part_at(text: &str) -> Part
    ensures value { part_of result ≡ part_at (chars text.now) }
    ensures some { 1 ≤ size_of result }
{
    let Some((c, rest)) = split_first(text) else {
        return Part::Unended;
    };
    if c == '#' {
        return Part::Passed(1 + line_len(rest));
    }
    if is_quote(c) {
        return string(text, c);
    }
    if unicode_ident::is_xid_continue(c) {
        return word(split_word(text).0);
    }
    Part::Passed(1)
}
