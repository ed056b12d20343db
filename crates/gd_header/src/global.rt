// The global name of a script.
ghost use Rattle.std.specs.Prelude.{◌≡◌, ◌≤◌, ◌^◌, ◌==◌, ◌&&◌, not, true, if◌then◌else◌, length, drop, option_map};
ghost use Rattle.gd_syntax.specs.Layout.{past_all, text_of, text_start};
ghost use Rattle.gd_syntax.specs.Spellings.{begins};
ghost use Rattle.std.specs.Str.{chars};
ghost use Rattle.gd_syntax.specs.Header.{global_of, header_end_of, header_len, header_text, is_header_line, name_behind, name_from};
ghost use Rattle.gd_header.specs.Parts.{global_in};

use crate::cursor::{Cursor, is_at_end, split_first};
use crate::parts::{Part, blanks_len, is_header_line, part_at};
use crate::words::{front_before, is_keyword, split_word};
use gd_syntax::Place;
use gd_tokens::{starts_word, valid_front};

const KEYWORD: &str = "class_name";

/// The identifier that blanks part from `class_name`.
fn name_behind<'a>(cursor: &mut Cursor<'a>) -> Option<(&'a str, Place)>
    ensures { option_map global_in result ≡ name_behind cursor.old.place (chars cursor.old.rest.now) }
{
    cursor.skip(blanks_len(cursor.rest));
    let (c, _) = split_first(cursor.rest)?;
    let (word, _) = split_word(cursor.rest);
    if !starts_word(c) || is_keyword(word) {
        return None;
    }
    Some((word, cursor.place))
}

/// Whether the header ends in front of the text.
fn ends_header(starts_line: bool, text: &str) -> bool
    ensures { result ≡ (starts_line && not (is_header_line (chars text.now))) }
{
    starts_line && !is_header_line(text)
}

/// Goes past the header lines.
fn pass_header(cursor: &mut Cursor)
    ensures rest { chars cursor.new.rest.now ≡ drop (header_len true (chars cursor.old.rest.now)) (chars cursor.old.rest.now) }
    ensures place { cursor.new.place ≡ past_all cursor.old.place (header_text (chars cursor.old.rest.now)) }
{
    let mut starts = true;
    while let Some((c, _)) = split_first(cursor.rest) {
        if ends_header(starts, cursor.rest) {
            return;
        }
        cursor.skip(1);
        starts = c == '\n';
    }
}

/// The header lines of a text.
fn header_text(text: &str) -> &str
    requires { length text.now ≤ 2 ^ 30 }
    ensures value { chars result.now ≡ header_text (chars text.now) }
    ensures bound { length result.now ≤ length text.now }
{
    let mut cursor = Cursor::new(text);
    pass_header(&mut cursor);
    front_before(text, cursor.rest)
}

/// The global name in the lines of a header.
fn global_name(text: &str) -> Option<(&str, Place)>
    requires { length text.now ≤ 2 ^ 30 }
    ensures { option_map global_in result ≡ name_from 0 text_start (chars text.now) }
{
    let mut cursor = Cursor::new(text);
    while !is_at_end(cursor.rest) {
        match part_at(cursor.rest) {
            Part::Passed(n) => cursor.skip(n),
            Part::Keyword => {
                cursor.skip(KEYWORD.len());
                return name_behind(&mut cursor);
            }
            Part::Unended => return None,
        }
    }
    None
}

/// The text without a byte order mark at its start.
fn without_mark(text: &str) -> &str
    ensures value { chars result.now ≡ (if begins (λ c. c == 65279) (chars text.now) then drop 1 (chars text.now) else chars text.now) }
    ensures bound { length result.now ≤ length text.now }
{
    match split_first(text) {
        Some((c, rest)) => { if c == '\u{feff}' { rest } else { text } }
        None => text,
    }
}

/// The text of a file. Behind a byte that is no UTF-8 there is none.
fn text_of(bytes: &[u8]) -> &str
    ensures value { chars result.now ≡ text_of bytes.now }
    ensures bound { length result.now ≤ length bytes.now }
{
    without_mark(valid_front(bytes))
}

/// The global name of a script, with its place: the identifier behind the first word `class_name` of its header lines.
pub fn header(text: &[u8]) -> Option<(&str, Place)>
    requires { length text.now ≤ 1048576 }
    ensures { option_map global_in result ≡ global_of text.now }
{
    global_name(header_text(text_of(text)))
}

/// Where the header lines of a script end: the place just past their last character.
pub fn header_end(text: &[u8]) -> Place
    requires { length text.now ≤ 1048576 }
    ensures { result ≡ header_end_of text.now }
{
    let mut cursor = Cursor::new(text_of(text));
    pass_header(&mut cursor);
    cursor.place
}
