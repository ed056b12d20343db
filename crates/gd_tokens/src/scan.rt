// What stands at a place of a text.
ghost use Rattle.std.specs.Prelude.{◌≡◌, ◌≤◌, ◌+◌, length, IfOk};
ghost use Rattle.gd_syntax.specs.Spellings.{found_at, is_blank, line_len};
ghost use Rattle.gd_tokens.specs.FoundParts.{found_of, found_size};

use crate::found::Found;
use crate::numbers::number;
use crate::signs::sign;
use crate::strings::{line_end_len, string};
use crate::words::{is_quote, starts_word, word};
use std::alloc::{AllocError, Global};

pub fn is_blank(c: char) -> bool
    ensures { result ≡ is_blank c }
{
    c == ' ' || c == '\t'
}

/// How many characters stand before the end of the line.
fn line_len(text: &[char]) -> usize
    ensures value { result ≡ line_len text.now }
    ensures bound { result ≤ length text.now }
{
    let mut n = 0;
    let mut rest = text;
    while let [_, after @ ..] = rest {
        if line_end_len(rest) > 0 {
            return n;
        }
        n += 1;
        rest = after;
    }
    n
}

/// What begins the text.
#[tactic(auto, unfolding(gd_syntax::specs::Spellings::found_at))]
pub fn found(alloc: Global, text: &[char]) -> Result<Found, AllocError>
    requires { 1 ≤ length text.now }
    ensures value { IfOk result (λ found. found_of found ≡ found_at text.now) }
    ensures bound { IfOk result (λ found. found_size found ≤ length text.now) }
{
    let c = text[0];
    let rest = &text[1..];
    if is_blank(c) {
        return Ok(Found::Space);
    }
    if c == '#' {
        return Ok(Found::Gap(1 + line_len(rest)));
    }
    let n = line_end_len(text);
    if n > 0 {
        return Ok(Found::LineEnd(n));
    }
    let joined = line_end_len(rest);
    if c == '\\' && joined > 0 {
        return Ok(Found::Gap(1 + joined));
    }
    if c.is_ascii_digit() {
        return Ok(number(text));
    }
    if is_quote(c) {
        return string(alloc, c, text);
    }
    if starts_word(c) {
        return word(alloc, text);
    }
    Ok(sign(text))
}
