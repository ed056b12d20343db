// The lines of settings.
ghost use Rattle.std.specs.Prelude.{◌≡◌, ◌≤◌, ◌+◌, ◌^◌, ◌==◌, ◌&&◌, length, take, drop, IfOk};
ghost use Rattle.gd_syntax.specs.Spellings.{line_end_len};
ghost use Rattle.scene_syntax.specs.Lines as spec;
ghost use Rattle.scene_syntax.specs.Values.{outside, value_len};
ghost use Rattle.text_scene.specs.LineParts.{line_of, reading_of};

use crate::characters::{
    are_blank, before, begins_blank, begins_with, copied, is_name, line_end_len, line_len, name_of,
};
use crate::values::value_len;
use gd_syntax::{Name, Text};
use std::alloc::{AllocError, Global};

/// What stands on a line.
#[derive(Drop)]
pub enum Line {
    /// A blank line or a comment.
    Nothing,
    Section(Name),
    /// A key and its value.
    Setting(Name, Text),
    Broken,
    /// The text ends before it is one of these.
    Unfinished,
}

/// A line, and how many characters it has.
#[derive(Drop)]
pub struct Reading {
    pub line: Line,
    pub size: usize,
}

fn lacking(stops: bool) -> Line
    ensures { line_of result ≡ spec.lacking stops }
{
    if stops {
        Line::Unfinished
    } else {
        Line::Broken
    }
}

/// A line behind `[`, on which the text may stop.
fn section_line(alloc: Global, stops: bool, row: &[char]) -> Result<Line, AllocError>
    ensures { IfOk result (λ line. line_of line ≡ spec.section_line stops row.now) }
{
    let n = before(row, ']');
    if n == row.len() {
        let is_blank = begins_blank(row);
        return Ok(lacking(stops && !is_blank));
    }
    let name = &row[..n];
    if is_name(name) && n + 1 == row.len() {
        Ok(Line::Section(name_of(alloc, name)?))
    } else {
        Ok(Line::Broken)
    }
}

/// A setting whose value begins the text.
fn with_value(alloc: Global, key: &[char], text: &[char]) -> Result<Reading, AllocError>
    requires { length key.now + length text.now ≤ 2 ^ 30 }
    ensures value { IfOk result (λ found. reading_of found ≡ spec.with_value key.now text.now (value_len outside 0 text.now)) }
    ensures bound { IfOk result (λ found. found.size ≤ length key.now + 1 + length text.now) }
{
    let Some(n) = value_len(text) else {
        return Ok(Reading {
            line: Line::Unfinished,
            size: key.len() + 1 + text.len(),
        });
    };
    let value = copied(alloc, &text[..n])?;
    Ok(Reading {
        line: Line::Setting(name_of(alloc, key)?, value),
        size: key.len() + 1 + n,
    })
}

/// A line that is no section and no comment. It begins the text.
fn setting_line(
    alloc: Global,
    stops: bool,
    row: &[char],
    text: &[char],
) -> Result<Reading, AllocError>
    requires fits { length text.now ≤ 2 ^ 30 }
    requires front { length row.now ≤ length text.now }
    ensures value { IfOk result (λ found. reading_of found ≡ spec.setting_line stops row.now text.now) }
    ensures bound { IfOk result (λ found. found.size ≤ length text.now) }
{
    let n = before(row, '=');
    if n == row.len() {
        return Ok(Reading {
            line: lacking(stops),
            size: row.len(),
        });
    }
    let key = &row[..n];
    if !is_name(key) {
        return Ok(Reading {
            line: Line::Broken,
            size: row.len(),
        });
    }
    with_value(alloc, key, &text[n + 1..])
}

fn line_in(alloc: Global, stops: bool, row: &[char], text: &[char]) -> Result<Reading, AllocError>
    requires fits { length text.now ≤ 2 ^ 30 }
    requires front { length row.now ≤ length text.now }
    ensures value { IfOk result (λ found. reading_of found ≡ spec.line_in stops row.now text.now) }
    ensures bound { IfOk result (λ found. found.size ≤ length text.now) }
{
    let size = row.len();
    if are_blank(row) || begins_with(row, ';') {
        let line = Line::Nothing;
        return Ok(Reading { line, size });
    }
    if begins_blank(row) {
        let line = Line::Broken;
        return Ok(Reading { line, size });
    }
    if begins_with(row, '[') {
        let line = section_line(alloc, stops, &row[1..])?;
        return Ok(Reading { line, size });
    }
    setting_line(alloc, stops, row, text)
}

/// The line that begins the text.
#[tactic(auto, unfolding(scene_syntax::specs::Lines::line_at))]
fn line_at(alloc: Global, text: &[char]) -> Result<Reading, AllocError>
    requires { length text.now ≤ 2 ^ 30 }
    ensures value { IfOk result (λ found. reading_of found ≡ spec.line_at text.now) }
    ensures bound { IfOk result (λ found. found.size ≤ length text.now) }
{
    let n = line_len(text);
    line_in(alloc, n == text.len(), &text[..n], text)
}

/// A line on which the text is cut is none, unless it is broken before.
fn cut_line(is_cut: bool, line: Line) -> Line
    ensures { line_of result ≡ spec.cut_where is_cut (line_of line) }
{
    if !is_cut {
        return line;
    }
    match line {
        Line::Broken => Line::Broken,
        Line::Nothing | Line::Section(_) | Line::Setting(_, _) | Line::Unfinished => {
            Line::Unfinished
        }
    }
}

/// The line that begins the text, with the characters of its end. What follows the text may cut its last line.
pub fn next_line(alloc: Global, is_cut: bool, text: &[char]) -> Result<Reading, AllocError>
    requires { length text.now ≤ 2 ^ 30 }
    ensures line { IfOk result (λ found. line_of found.line ≡ spec.line_before is_cut (spec.line_at text.now) (length text.now)) }
    ensures size { IfOk result (λ found. found.size ≡ spec.size_of (spec.line_at text.now) text.now) }
    ensures bound { IfOk result (λ found. found.size ≤ length text.now) }
{
    let found = line_at(alloc, text)?;
    let end = line_end_len(&text[found.size..]);
    let is_last = is_cut && found.size == text.len();
    let size = found.size + end;
    Ok(Reading {
        line: cut_line(is_last, found.line),
        size,
    })
}
