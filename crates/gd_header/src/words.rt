// Words of a text.
ghost use Rattle.std.specs.Prelude.{◌≡◌, ◌≤◌, ℕ, bytes_eq, length, take, drop, is_some};
ghost use Rattle.std.specs.List.{prefix_len};
ghost use Rattle.std.specs.Str.{chars};
ghost use Rattle.unicode_ident.specs.Ident.{is_xid_continue};
ghost use Rattle.gd_syntax.specs.Header.{word_of};
ghost use Rattle.gd_syntax.specs.Spellings.{spelled};
ghost use Rattle.gd_syntax.specs.Tokens.{keywords};
ghost use Rattle.gd_header.specs.CursorParts.{IsEnd};

use crate::cursor::{is_at_end, split_first};
use gd_syntax::{KEYWORDS, Mark};

/// Whether the text is this ASCII spelling.
pub fn is_spelling(spelling: &str, text: &str) -> bool
    ensures { result ≡ bytes_eq spelling.now (chars text.now) }
{
    let mut left = spelling.as_bytes();
    let mut rest = text;
    while let [byte, others @ ..] = left {
        match split_first(rest) {
            Some((c, after)) if char::from(*byte) == c => rest = after,
            _ => return false,
        }
        left = others;
    }
    is_at_end(rest)
}

/// Whether one of these is spelled so.
#[tactic(auto, unfolding(gd_syntax::specs::Spellings::spelled))]
fn is_one_of(marks: &[Mark], text: &str) -> bool
    ensures { result ≡ is_some (spelled marks.now (chars text.now)) }
{
    let mut left = marks;
    while let [mark, others @ ..] = left {
        if is_spelling(mark.as_str(), text) {
            return true;
        }
        left = others;
    }
    false
}

/// Whether the word is a keyword.
pub fn is_keyword(word: &str) -> bool
    ensures { result ≡ is_some (spelled keywords (chars word.now)) }
{
    is_one_of(&KEYWORDS, word)
}

/// The text in front of this end of it.
pub fn front_before<'a>(text: &'a str, end: &str) -> &'a str
    requires { IsEnd (chars text.now) (chars end.now) }
    ensures bound { length result.now ≤ length text.now }
    ensures front { (n : ℕ) → chars end.now ≡ drop n (chars text.now) → chars result.now ≡ take n (chars text.now) }
{
    let (front, _) = text.split_at(text.len() - end.len());
    front
}

/// The identifier characters that begin the text, and the text behind them.
pub fn split_word(text: &str) -> (&str, &str)
    ensures word { chars result.0.now ≡ word_of (chars text.now) }
    ensures rest { chars result.1.now ≡ drop (prefix_len is_xid_continue (chars text.now)) (chars text.now) }
{
    let mut rest = text;
    while let Some((c, after)) = split_first(rest) {
        if !unicode_ident::is_xid_continue(c) {
            return (front_before(text, rest), rest);
        }
        rest = after;
    }
    (text, rest)
}
