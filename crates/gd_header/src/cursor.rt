// A text that is read from the front without taking memory.
ghost use Rattle.std.specs.Prelude.{◌≡◌, ◌==◌, ◌<◌, ◌≤◌, ◌+◌, ◌^◌, length, drop, take, option_map, IfSome};
ghost use Rattle.std.specs.Str.{chars};
ghost use Rattle.gd_syntax.specs.Layout.{past_all};
ghost use Rattle.gd_header.specs.CursorParts.{IsNext, IsSplit};

use gd_syntax::Place;
use gd_tokens::past;

/// The first character of a text, and the text behind it.
pub fn split_first(text: &str) -> Option<(char, &str)>
    ensures value { IsSplit (chars text.now) (option_map (λ p. (p.0, chars p.1.now)) result) }
    ensures shorter { IfSome result (λ p. length p.1.now < length text.now) }
{
    let mut chars = text.chars();
    let c = chars.next()?;
    Some((c, chars.as_str()))
}

pub fn is_at_end(text: &str) -> bool
    ensures { result ≡ (length (chars text.now) == 0) }
{
    match split_first(text) {
        Some(_) => false,
        None => true,
    }
}

/// The text behind so many characters.
pub fn skip(text: &str, n: usize) -> &str
    ensures { chars result.now ≡ drop n (chars text.now) }
{
    let mut rest = text;
    let mut left = n;
    while left > 0 {
        let Some((_, after)) = split_first(rest) else {
            return rest;
        };
        rest = after;
        left -= 1;
    }
    rest
}

/// What is left of a text, and the place of its first character.
#[derive(Clone, Copy)]
pub struct Cursor<'a> {
    pub rest: &'a str,
    pub place: Place,
    ghost counts: { 1 ≤ place.column },
    ghost fits: { place.line + place.column + length rest.now ≤ 2 ^ 31 },
}

impl<'a> Cursor<'a> {
    pub fn new(text: &'a str) -> Self
        requires { length text.now ≤ 2 ^ 30 }
        ensures text { result.rest.now ≡ text.now }
        ensures place { result.place ≡ record { line = 1; column = 1 } }
    {
        Cursor {
            rest: text,
            place: Place { line: 1, column: 1 },
        }
    }

    /// Goes past one character.
    pub fn next(&mut self) -> Option<char>
        ensures value { IsNext self.old.place (chars self.old.rest.now) result self.new.place (chars self.new.rest.now) }
        ensures shorter { IfSome result (λ c. length self.new.rest.now < length self.old.rest.now) }
        ensures within { length self.new.rest.now ≤ length self.old.rest.now }
    {
        let (c, rest) = split_first(self.rest)?;
        let place = past(self.place, c);
        *self = Cursor { rest, place };
        Some(c)
    }

    /// Goes past so many characters, or to the end.
    pub fn skip(&mut self, n: usize)
        ensures rest { chars self.new.rest.now ≡ drop n (chars self.old.rest.now) }
        ensures place { self.new.place ≡ past_all self.old.place (take n (chars self.old.rest.now)) }
        ensures within { length self.new.rest.now ≤ length self.old.rest.now }
        ensures shorter { 1 ≤ n → 1 ≤ length (chars self.old.rest.now) → length self.new.rest.now < length self.old.rest.now }
    {
        let mut left = n;
        while left > 0 {
            match self.next() {
                Some(_) => left -= 1,
                None => return,
            }
        }
    }
}
