// The lines of a text.
ghost use Rattle.std.specs.Prelude.{◌≡◌, ◌≤◌, ◌∷◌, ◌<◌, [], length, reverse, true, IfOk, OnOk};
ghost use Rattle.gd_syntax.specs.Spellings.{found_at, line_end};
ghost use Rattle.gd_syntax.specs.Layout.{brackets, closes_bracket, line_stop, lines_of, opens_bracket, pieces};
ghost use Rattle.gd_tokens.specs.LineParts.{GoesOn, IsStep, ended, ending_of, front_of, line_of, lines_behind, with_blank, with_gap, with_token};

use crate::found::Found;
use crate::reader::Reader;
use crate::scan::found;
use gd_syntax::{Kind, LoadFault, Mark, Place, Token};
use std::alloc::{AllocError, Global};

/// How a line ends.
#[derive(Clone, Copy, PartialEq, Eq)]
pub enum Ending {
    /// At a line end that no bracket is open at.
    Ends(Place),
    /// At the end of the text.
    Stops(Place),
    /// At the end of the text, with this bracket or string as the innermost that is open.
    Unclosed(Place),
    /// At what begins here and is no token, with its fault.
    Breaks(Place, LoadFault),
}

/// A line: where it starts, the blanks before all else, its tokens and its end.
#[derive(Drop)]
pub struct Line {
    pub start: Place,
    pub indent: Vec<char>,
    pub tokens: Vec<Token>,
    pub ending: Ending,
}

/// What was read of a line.
#[derive(Drop)]
pub struct LineStart {
    pub start: Place,
    pub indent: Vec<char>,
    /// Nothing but blanks so far.
    pub blank: bool,
    pub tokens: Vec<Token>,
    /// The open brackets, innermost last.
    pub opened: Vec<Place>,
}

fn opens_bracket(mark: Mark) -> bool
    ensures { result ≡ opens_bracket mark }
{
    match mark {
        Mark::LParen | Mark::LBracket | Mark::LBrace => true,
        _ => false,
    }
}

fn closes_bracket(mark: Mark) -> bool
    ensures { result ≡ closes_bracket mark }
{
    match mark {
        Mark::RParen | Mark::RBracket | Mark::RBrace => true,
        _ => false,
    }
}

/// Keeps account of the open brackets past a token. A closing bracket closes the innermost, whatever its kind.
fn note_bracket(opened: &mut Vec<Place>, kind: &Kind, place: Place) -> Result<(), AllocError>
    ensures { OnOk result (reverse opened.new.items ≡ brackets kind.now place (reverse opened.old.items)) }
{
    let Kind::Mark(mark) = kind else {
        return Ok(());
    };
    if opens_bracket(*mark) {
        opened.push(place)?;
        return Ok(());
    }
    if closes_bracket(*mark) {
        let _ = opened.pop();
    }
    Ok(())
}

impl LineStart {
    fn new(alloc: Global, start: Place) -> LineStart
        ensures { front_of result ≡ record { start = start; indent = []; blank = true; tokens = []; opened = [] } }
    {
        LineStart {
            start,
            indent: Vec::new(alloc),
            blank: true,
            tokens: Vec::new(alloc),
            opened: Vec::new(alloc),
        }
    }

    fn push_blank(&mut self, c: char) -> Result<(), AllocError>
        ensures { OnOk result (front_of self.new ≡ with_blank (front_of self.old) c) }
    {
        if self.blank {
            self.indent.push(c)?;
        }
        Ok(())
    }

    fn push_token(&mut self, kind: Kind, place: Place) -> Result<(), AllocError>
        ensures { OnOk result (front_of self.new ≡ with_token (front_of self.old) kind place) }
    {
        self.blank = false;
        note_bracket(&mut self.opened, &kind, place)?;
        self.tokens.push(Token { kind, place })?;
        Ok(())
    }

    /// How the line ends at the end of the text.
    fn stop(&self, place: Place) -> Ending
        ensures { ending_of result ≡ line_stop (front_of self.now).opened place }
    {
        match self.opened.last() {
            Some(bracket) => Ending::Unclosed(*bracket),
            None => Ending::Stops(place),
        }
    }

    fn push_gap(&mut self)
        ensures { front_of self.new ≡ with_gap (front_of self.old) }
    {
        self.blank = false;
    }

    /// The line end of so many characters: it ends the line where no bracket is open.
    fn end_line(&mut self, reader: &mut Reader, n: usize) -> Option<Ending>
        requires some { 1 ≤ length reader.old.rest.now }
        requires fits { n ≤ length reader.old.rest.now }
        ensures { found_at reader.old.rest.now ≡ line_end n → IsStep (front_of self.old) reader.old.place reader.old.rest.now result (front_of self.new) reader.new.place reader.new.rest.now }
    {
        let place = reader.place;
        reader.pass(n);
        if self.opened.is_empty() {
            return Some(Ending::Ends(place));
        }
        self.push_gap();
        None
    }

    /// Reads one piece of the text. Gives the end of the line, where it ends.
    fn read(&mut self, alloc: Global, reader: &mut Reader) -> Result<Option<Ending>, AllocError>
        ensures { IfOk result (λ ending. IsStep (front_of self.old) reader.old.place reader.old.rest.now ending (front_of self.new) reader.new.place reader.new.rest.now) }
    {
        let place = reader.place;
        let [c, ..] = reader.rest else {
            return Ok(Some(self.stop(place)));
        };
        match found(alloc, reader.rest)? {
            Found::Space => {
                self.push_blank(*c)?;
                reader.pass(1);
            }
            Found::Gap(n) => {
                self.push_gap();
                reader.pass(n);
            }
            Found::LineEnd(n) => return Ok(self.end_line(reader, n)),
            Found::Token(kind, n) => {
                self.push_token(kind, place)?;
                reader.pass(n);
            }
            Found::Wrong(kind, n) => {
                let fault = LoadFault {
                    kind,
                    place: reader.place_at(n),
                };
                return Ok(Some(Ending::Breaks(place, fault)));
            }
            Found::Unended => return Ok(Some(Ending::Unclosed(place))),
        }
        Ok(None)
    }
}

/// Reads the line that begins the text.
pub fn read_line(alloc: Global, reader: &mut Reader) -> Result<Line, AllocError>
    ensures value { IfOk result (λ line. lines_of [] (pieces 0 reader.old.place reader.old.rest.now) ≡ line_of line ∷ lines_behind line.ending reader.new.place reader.new.rest.now) }
    ensures shorter { IfOk result (λ line. GoesOn line.ending reader.old.rest.now reader.new.rest.now) }
{
    let mut line = LineStart::new(alloc, reader.place);
    loop {
        if let Some(ending) = line.read(alloc, reader)? {
            let LineStart {
                start,
                indent,
                blank: _,
                tokens,
                opened: _,
            } = line;
            return Ok(Line {
                start,
                indent,
                tokens,
                ending,
            });
        }
    }
}
