// A text that is read from the front.
ghost use Rattle.std.specs.Prelude.{◌≡◌, ◌<◌, ◌≤◌, ◌+◌, ◌^◌, length, take, drop};
ghost use Rattle.gd_syntax.specs.Layout.{past, past_all, pieces};

use gd_syntax::Place;

/// What is left of a text, and the place of its first character.
#[derive(Drop)]
pub struct Reader<'a> {
    pub rest: &'a [char],
    pub place: Place,
    ghost counts: { 1 ≤ place.column },
    ghost fits: { place.line + place.column + length rest.now ≤ 2 ^ 31 },
}

/// The place behind a character.
pub fn past(place: Place, c: char) -> Place
    requires { place.line + place.column < 2 ^ 31 }
    ensures { result ≡ past place c }
{
    if c == '\n' {
        Place {
            line: place.line + 1,
            column: 1,
        }
    } else {
        Place {
            line: place.line,
            column: place.column + 1,
        }
    }
}

impl<'a> Reader<'a> {
    ghost use Rattle.gd_tokens.specs.LineParts.{pieces_behind};

    pub fn new(text: &'a [char]) -> Self
        requires { length text.now ≤ 2 ^ 30 }
        ensures text { result.rest.now ≡ text.now }
        ensures place { result.place ≡ record { line = 1; column = 1 } }
    {
        Reader {
            rest: text,
            place: Place { line: 1, column: 1 },
        }
    }

    /// The place so many characters further on.
    pub fn place_at(&self, n: usize) -> Place
        requires { n ≤ length self.now.rest.now }
        ensures value { result ≡ past_all self.now.place (take n self.now.rest.now) }
        ensures counts { 1 ≤ result.column }
        ensures fits { result.line + result.column ≤ self.now.place.line + self.now.place.column + n }
    {
        let mut place = self.place;
        for c in &self.rest[..n] {
            place = past(place, *c);
        }
        place
    }

    /// Goes past so many characters.
    pub fn skip(&mut self, n: usize)
        requires { n ≤ length self.old.rest.now }
        ensures rest { self.new.rest.now ≡ drop n self.old.rest.now }
        ensures place { self.new.place ≡ past_all self.old.place (take n self.old.rest.now) }
    {
        let place = self.place_at(n);
        let (_, after) = self.rest.split_at(n);
        *self = Reader { rest: after, place };
    }

    /// Goes past what was found here, which has so many characters, and one at least.
    #[tactic(auto, using(crate::proofs::Pieces::behind_is))]
    pub fn pass(&mut self, n: usize)
        requires some { 1 ≤ length self.old.rest.now }
        requires fits { n ≤ length self.old.rest.now }
        ensures pieces { pieces 0 self.new.place self.new.rest.now ≡ pieces_behind n self.old.place self.old.rest.now }
        ensures shorter { length self.new.rest.now < length self.old.rest.now }
    {
        self.skip(n.max(1));
    }
}
