// Identifiers and keywords.
ghost use Rattle.std.specs.Prelude.{◌≡◌, ◌≤◌, ◌&&◌, length, bytes_eq, codes, IfOk};
ghost use Rattle.std.specs.List.{prefix_len};
ghost use Rattle.unicode_ident.specs.Ident.{is_xid_continue};
ghost use Rattle.gd_syntax.specs.Spellings.{begins, is_quote, keyword_or_name, spelled, starts_word, word_at};
ghost use Rattle.gd_syntax.specs.Tokens.{keywords};
ghost use Rattle.gd_tokens.specs.FoundParts.{found_of, found_size};

use crate::found::Found;
use crate::keywords::keywords_for;
use crate::signs::spelled_by;
use gd_syntax::{FaultKind, Form, Kind, Name, Text};
use std::alloc::{AllocError, Global};

/// Whether an identifier may begin with the character.
pub fn starts_word(c: char) -> bool
    ensures { result ≡ starts_word c }
{
    unicode_ident::is_xid_start(c) || c == '_'
}

pub fn is_quote(c: char) -> bool
    ensures { result ≡ is_quote c }
{
    c == '"' || c == '\''
}

/// How many characters go on an identifier.
fn word_len(text: &[char]) -> usize
    ensures value { result ≡ prefix_len is_xid_continue text.now }
    ensures bound { result ≤ length text.now }
{
    let mut n = 0;
    let mut rest = text;
    while let [c, after @ ..] = rest {
        if !unicode_ident::is_xid_continue(*c) {
            return n;
        }
        n += 1;
        rest = after;
    }
    n
}

/// A text of these characters.
fn copied(alloc: Global, text: &[char]) -> Result<Text, AllocError>
    ensures { IfOk result (λ t. t ≡ text.now) }
{
    let mut made = Text::new(alloc);
    for c in text {
        made.push(*c)?;
    }
    Ok(made)
}

/// Whether the word and the quote that follows it begin a raw string.
fn begins_raw_string(word: &[char], rest: &[char]) -> bool
    ensures { result ≡ (bytes_eq word.now (codes "r") && begins is_quote rest.now) }
{
    match (word, rest) {
        ([c], [quote, ..]) => *c == 'r' && is_quote(*quote),
        _ => false,
    }
}

fn keyword_or_name(alloc: Global, word: &[char]) -> Result<Kind, AllocError>
    ensures { IfOk result (λ kind. kind ≡ keyword_or_name (spelled keywords word.now) word.now) }
{
    match spelled_by(keywords_for(word), word) {
        Some(mark) => Ok(Kind::Mark(mark)),
        None => Ok(Kind::Name(Name::from_text(copied(alloc, word)?))),
    }
}

/// The identifier or keyword that begins the text.
#[tactic(auto, unfolding(gd_syntax::specs::Spellings::word_at))]
pub fn word(alloc: Global, text: &[char]) -> Result<Found, AllocError>
    ensures value { IfOk result (λ found. found_of found ≡ word_at text.now) }
    ensures bound { IfOk result (λ found. found_size found ≤ length text.now) }
{
    let size = word_len(text);
    let (word, rest) = text.split_at(size);
    if begins_raw_string(word, rest) {
        return Ok(Found::Wrong(FaultKind::Unsupported(Form::RawString), 0));
    }
    Ok(Found::Token(keyword_or_name(alloc, word)?, size))
}
