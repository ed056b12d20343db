// Places in texts, and texts cut at places.
ghost use Rattle.std.specs.Prelude.{◌≡◌, ◌≤◌, ◌+◌, length, take, drop, chars, IsCharBoundary, IsUtf8, IfSome, nat_eq, option_map, slice_get};
ghost use Rattle.std.specs.List.{starts_with, ends_with};
ghost use Rattle.variant_values.specs.StringMethods.{first_place, first_split, spelled, place_from, char_at};

use call_support::arguments::natural;
use memchr::memmem;

pub fn count_chars(text: &str) -> usize
    ensures chars { result ≡ length (chars text.now) }
    ensures short { result ≤ length text.now }
{
    text.chars().count()
}

/// The text after so many characters.
fn rest_after(text: &str, n: usize) -> &str
    ensures { result.now ≡ spelled (drop n (chars text.now)) }
{
    let mut rest = text.chars();
    for _ in 0..n {
        if rest.next().is_none() {
            return "";
        }
    }
    rest.as_str()
}

/// A text cut after so many characters.
pub fn split_chars(text: &str, n: usize) -> (&str, &str)
    ensures front { result.0.now ≡ spelled (take n (chars text.now)) }
    ensures back { result.1.now ≡ spelled (drop n (chars text.now)) }
{
    let rest = rest_after(text, n);
    text.split_at(text.len() - rest.len())
}

/// The byte at which a text first stands in another.
pub fn first_place(text: &str, what: &str) -> Option<usize>
    ensures place { result ≡ first_place what.now text.now }
    ensures start { IfSome result (λ i. IsCharBoundary text.now i) }
    ensures end { IfSome result (λ i. IsCharBoundary text.now (i + length what.now)) }
    ensures within { IfSome result (λ i. i + length what.now ≤ length text.now) }
{
    memmem::find(text.as_bytes(), what.as_bytes())
}

/// The place in characters where a text first stands in another.
fn first_character(text: &str, what: &str) -> Option<usize>
    ensures place { result ≡ first_place (chars what.now) (chars text.now) }
    ensures within { IfSome result (λ n. n ≤ length text.now) }
{
    match first_place(text, what) {
        Some(place) => {
            let (before, _) = text.split_at(place);
            Some(count_chars(before))
        }
        None => None,
    }
}

/// The same from a place on.
pub fn place_from(text: &str, what: &str, from: usize) -> Option<usize>
    ensures place { result ≡ place_from what.now from text.now }
    ensures within { IfSome result (λ n. n ≤ length text.now) }
{
    if count_chars(text) < from {
        return None;
    }
    let (_, rest) = split_chars(text, from);
    match first_character(rest, what) {
        Some(place) => Some(from + place),
        None => None,
    }
}

fn nth_char(text: &str, n: usize) -> Option<char>
    ensures { result ≡ slice_get (chars text.now) n }
{
    let (_, rest) = split_chars(text, n);
    rest.chars().next()
}

/// The code of the character at an index.
pub fn char_at(text: &str, index: i64) -> Option<u32>
    ensures { result ≡ char_at (chars text.now) index }
{
    match natural(index) {
        Some(n) => match nth_char(text, n) {
            Some(c) => Some(c as u32),
            None => None,
        },
        None => None,
    }
}

/// The text before a first place of another, and that behind it.
pub fn split_first<'a>(text: &'a str, by: &str) -> Option<(&'a str, &'a str)>
    ensures parts { option_map (λ p. (p.0.now, p.1.now)) result ≡ first_split by.now text.now }
    ensures utf8 { IfSome result (λ p. IsUtf8 p.1.now) }
    ensures shorter { IfSome result (λ p. length p.1.now + length by.now ≤ length text.now) }
{
    let place = first_place(text, by)?;
    let (before, _) = text.split_at(place);
    let (_, after) = text.split_at(place + by.len());
    Some((before, after))
}

pub fn begins_with(text: &str, what: &str) -> bool
    ensures { result ≡ starts_with nat_eq text.now what.now }
{
    text.starts_with(what)
}

pub fn ends_with(text: &str, what: &str) -> bool
    ensures { result ≡ ends_with nat_eq text.now what.now }
{
    text.ends_with(what)
}
