// Numbers.
ghost use Rattle.std.specs.Prelude.{◌≡◌, ℕ, ◌^◌, ◌<◌, ◌≤◌, ◌+◌, ◌*◌, ◌==◌, false, if◌then◌else◌, length, IfSome};
ghost use Rattle.std.specs.Option.{SomeIff};
ghost use Rattle.std.specs.Char.{digit_value};
ghost use Rattle.unicode_ident.specs.Ident.{is_xid_start};
ghost use Rattle.gd_syntax.specs.Spellings.{begins, digits_len, exponent_len, float_len, fraction_len, is_digit, is_sign, number_at, number_value, radix_len, radix_of, sign_len, whole};
ghost use Rattle.gd_tokens.specs.FoundParts.{found_of, found_size};

use crate::found::Found;
use gd_syntax::{FaultKind, Form, Kind};

/// The least number that is too large.
const TOO_LARGE: u64 = 1 << 63;

pub fn is_digit(c: char, radix: u32) -> bool
    requires low { 2 ≤ radix }
    requires high { radix ≤ 36 }
    ensures { result ≡ is_digit radix c }
{
    c.to_digit(radix).is_some()
}

fn begins_digit(text: &[char], radix: u32) -> bool
    requires low { 2 ≤ radix }
    requires high { radix ≤ 36 }
    ensures value { result ≡ begins (is_digit radix) text.now }
{
    match text {
        [c, ..] => is_digit(*c, radix),
        [] => false,
    }
}

/// How many characters are digits, with `_` between two of them.
#[tactic(auto, unfolding(gd_syntax::specs::Spellings::digits_len))]
fn digits_len(text: &[char], radix: u32) -> usize
    requires low { 2 ≤ radix }
    requires high { radix ≤ 36 }
    ensures value { result ≡ digits_len radix false text.now }
    ensures bound { result ≤ length text.now }
{
    let mut n = 0;
    let mut behind = false;
    let mut rest = text;
    while let [c, after @ ..] = rest {
        if is_digit(*c, radix) {
            behind = true;
        } else if behind && *c == '_' && begins_digit(after, radix) {
            behind = false;
        } else {
            return n;
        }
        n += 1;
        rest = after;
    }
    n
}

/// The value of a digit or a letter, and 36 of any other character.
fn value_of(c: char) -> u32
    ensures value { result ≡ digit_value c }
    ensures bound { result ≤ 36 }
{
    c.to_digit(36).unwrap_or(36)
}

/// The number with a digit behind it, if it fits.
fn with_digit(value: u64, radix: u32, digit: u32) -> Option<u64>
    ensures value { SomeIff result (value * radix + digit < 2 ^ 63) (value * radix + digit) }
{
    let next = value
        .checked_mul(u64::from(radix))?
        .checked_add(u64::from(digit))?;
    if next < TOO_LARGE { Some(next) } else { None }
}

/// The number that the digits write, if it fits.
#[tactic(auto, unfolding(gd_syntax::specs::Spellings::number_value))]
pub fn number_value(digits: &[char], radix: u32) -> Option<u64>
    requires { 2 ≤ radix }
    ensures { SomeIff result (number_value radix digits.now < 2 ^ 63) (number_value radix digits.now) }
{
    let mut value = 0;
    let mut rest = digits;
    while let [c, after @ ..] = rest {
        if *c != '_' {
            let Some(next) = with_digit(value, radix, value_of(*c)) else {
                return None;
            };
            value = next;
        }
        rest = after;
    }
    Some(value)
}

/// How many characters a `.` and digits have.
#[tactic(auto, unfolding(gd_syntax::specs::Spellings::fraction_len))]
fn fraction_len(text: &[char]) -> usize
    ensures value { result ≡ fraction_len text.now }
    ensures bound { result ≤ length text.now }
{
    match text {
        [c, rest @ ..] => {
            if *c == '.' && begins_digit(rest, 10) {
                1 + digits_len(rest, 10)
            } else {
                0
            }
        }
        [] => 0,
    }
}

/// How many characters of a sign begin the text.
fn sign_len(text: &[char]) -> usize
    ensures value { result ≡ sign_len text.now }
    ensures bound { result ≤ length text.now }
{
    match text {
        [c, ..] => { if *c == '+' || *c == '-' { 1 } else { 0 } }
        [] => 0,
    }
}

/// How many characters an exponent has.
#[tactic(auto, unfolding(gd_syntax::specs::Spellings::exponent_len))]
fn exponent_len(text: &[char]) -> usize
    ensures value { result ≡ exponent_len text.now }
    ensures bound { result ≤ length text.now }
{
    match text {
        [c, rest @ ..] => {
            let n = sign_len(rest);
            let digits = &rest[n..];
            if (*c == 'e' || *c == 'E') && begins_digit(digits, 10) {
                1 + (n + digits_len(digits, 10))
            } else {
                0
            }
        }
        [] => 0,
    }
}

/// How many characters a fraction and an exponent have.
#[tactic(auto, unfolding(gd_syntax::specs::Spellings::float_len))]
fn float_len(text: &[char]) -> usize
    ensures value { result ≡ float_len text.now }
    ensures bound { result ≤ length text.now }
{
    let n = fraction_len(text);
    n + exponent_len(&text[n..])
}

/// The radix that the first two characters name, where one of its digits follows.
#[tactic(auto, unfolding(gd_syntax::specs::Spellings::radix_of))]
fn radix_of(text: &[char]) -> u32
    ensures value { result ≡ radix_of text.now }
    ensures low { 2 ≤ result }
    ensures high { result ≤ 16 }
    ensures bound { radix_len result ≤ length text.now }
{
    match text {
        [c, d, rest @ ..] => {
            if *c == '0' && *d == 'x' && begins_digit(rest, 16) {
                16
            } else if *c == '0' && *d == 'b' && begins_digit(rest, 2) {
                2
            } else {
                10
            }
        }
        [_] => 10,
        [] => 10,
    }
}

fn radix_len(radix: u32) -> usize
    ensures { result ≡ radix_len radix }
{
    if radix == 10 { 0 } else { 2 }
}

/// How many characters of a float follow the digits.
fn more_len(radix: u32, rest: &[char]) -> usize
    ensures value { result ≡ (if radix == 10 then float_len rest.now else 0) }
    ensures bound { result ≤ length rest.now }
{
    if radix == 10 { float_len(rest) } else { 0 }
}

fn begins_letter(text: &[char]) -> bool
    ensures { result ≡ begins is_xid_start text.now }
{
    match text {
        [c, ..] => unicode_ident::is_xid_start(*c),
        [] => false,
    }
}

fn whole(digits: &[char], radix: u32, size: usize) -> Found
    requires { 2 ≤ radix }
    ensures value { found_of result ≡ whole (number_value radix digits.now) size }
    ensures bound { found_size result ≤ size }
{
    match number_value(digits, radix) {
        Some(value) => Found::Token(Kind::Int(value as i64), size),
        None => Found::Wrong(FaultKind::NumberTooLarge, 0),
    }
}

/// The number that begins the text.
#[tactic(auto, unfolding(gd_syntax::specs::Spellings::number_at))]
pub fn number(text: &[char]) -> Found
    ensures value { found_of result ≡ number_at text.now }
    ensures bound { found_size result ≤ length text.now }
{
    let radix = radix_of(text);
    let front = radix_len(radix);
    let digits = &text[front..];
    let n = digits_len(digits, radix);
    let size = front + n;
    let more = more_len(radix, &text[size..]);
    if begins_letter(&text[size + more..]) {
        return Found::Wrong(FaultKind::BadToken, 0);
    }
    if more > 0 {
        return Found::Wrong(FaultKind::Unsupported(Form::Float), 0);
    }
    whole(&digits[..n], radix, size)
}
