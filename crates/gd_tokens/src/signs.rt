// Tokens that have one spelling.
ghost use Rattle.std.specs.Prelude.{◌≡◌, ◌≤◌, ◌<◌, ℕ, bytes_eq, length, take, IfSome};
ghost use Rattle.std.specs.List.{filter};
ghost use Rattle.gd_syntax.specs.Spellings.{spelled, sign_at};
ghost use Rattle.gd_syntax.specs.Tokens.{signs};
ghost use Rattle.gd_tokens.specs.FoundParts.{found_of, found_size, begins_with};

use crate::found::Found;
use gd_syntax::{FaultKind, Kind, Mark, SIGNS};

/// How many characters the longest sign has.
const LONGEST_SIGN: usize = 3;

/// Whether the text is this ASCII spelling.
fn is_spelling(spelling: &str, text: &[char]) -> bool
    ensures { result ≡ bytes_eq spelling.now text.now }
{
    let mut left = spelling.as_bytes();
    let mut rest = text;
    while let [byte, others @ ..] = left {
        match rest {
            [c, after @ ..] if char::from(*byte) == *c => rest = after,
            _ => return false,
        }
        left = others;
    }
    rest.is_empty()
}

/// The one of these that is spelled so.
#[tactic(auto, unfolding(gd_syntax::specs::Spellings::spelled))]
pub fn spelled_by(marks: &[Mark], text: &[char]) -> Option<Mark>
    ensures { result ≡ spelled marks.now text.now }
{
    let mut left = marks;
    while let [mark, others @ ..] = left {
        if is_spelling(mark.as_str(), text) {
            return Some(*mark);
        }
        left = others;
    }
    None
}

/// The first characters of a text, at most so many.
fn front(text: &[char], n: usize) -> &[char]
    ensures { result.now ≡ take n text.now }
{
    &text[..text.len().min(n)]
}

/// The signs that begin with this character, if there are any.
fn signs_from(c: char) -> Option<&'static [Mark]>
    ensures { IfSome result (λ listed. listed.now ≡ filter (begins_with c) signs) }
{
    let signs: &'static [Mark] = match c {
        '+' => &[Mark::Plus, Mark::PlusAssign],
        '-' => &[Mark::Minus, Mark::MinusAssign, Mark::Arrow],
        '*' => &[Mark::Star, Mark::Power, Mark::StarAssign, Mark::PowerAssign],
        '/' => &[Mark::Slash, Mark::SlashAssign],
        '%' => &[Mark::Percent, Mark::PercentAssign],
        '<' => &[
            Mark::ShiftLeft,
            Mark::Less,
            Mark::LessEqual,
            Mark::ShiftLeftAssign,
        ],
        '>' => &[
            Mark::ShiftRight,
            Mark::Greater,
            Mark::GreaterEqual,
            Mark::ShiftRightAssign,
        ],
        '&' => &[Mark::Amp, Mark::AmpAmp, Mark::AmpAssign],
        '|' => &[Mark::Bar, Mark::BarBar, Mark::BarAssign],
        '^' => &[Mark::Caret, Mark::CaretAssign],
        '~' => &[Mark::Tilde],
        '!' => &[Mark::Bang, Mark::Differ],
        '=' => &[Mark::Equal, Mark::Assign],
        ':' => &[Mark::ColonAssign, Mark::Colon],
        ';' => &[Mark::Semicolon],
        ',' => &[Mark::Comma],
        '.' => &[Mark::Dot, Mark::DotDot],
        '(' => &[Mark::LParen],
        ')' => &[Mark::RParen],
        '[' => &[Mark::LBracket],
        ']' => &[Mark::RBracket],
        '{' => &[Mark::LBrace],
        '}' => &[Mark::RBrace],
        '@' => &[Mark::At],
        '$' => &[Mark::Dollar],
        _ => return None,
    };
    Some(signs)
}

/// Those of the signs that may begin the text.
fn signs_for(text: &[char]) -> &'static [Mark]
    ensures { (n : ℕ) → 0 < n → spelled result.now (take n text.now) ≡ spelled signs (take n text.now) }
{
    let [c, ..] = text else {
        return &SIGNS;
    };
    match signs_from(*c) {
        Some(signs) => signs,
        None => &SIGNS,
    }
}

/// The longest sign that begins the text.
#[tactic(auto, unfolding(gd_syntax::specs::Spellings::sign_at))]
pub fn sign(text: &[char]) -> Found
    ensures value { found_of result ≡ sign_at 3 text.now }
    ensures bound { found_size result ≤ length text.now }
{
    let signs = signs_for(text);
    let mut n = LONGEST_SIGN;
    while n > 0 {
        if let Some(mark) = spelled_by(signs, front(text, n)) {
            return Found::Token(Kind::Mark(mark), mark.as_str().len());
        }
        n -= 1;
    }
    Found::Wrong(FaultKind::BadToken, 0)
}
