// What stands behind a `%` of a pattern.
ghost use Rattle.std.specs.Prelude.{◌≡◌, ◌<◌, ◌≤◌, ◌-◌, length, option_map, slice_index, IfSome};
ghost use Rattle.std.specs.List.{prefix_len};
ghost use Rattle.std.specs.Char.{digit_value, is_ascii_digit};
ghost use Rattle.variant_values.specs.Formats.{directive_at, is_flag, has_byte, letter_at, width_of};
ghost use Rattle.string_calls.specs.Directives.{directive_of, letter_of};

/// How a value is shown.
#[derive(Clone, Copy)]
pub enum Conversion {
    /// `s`
    Text,
    /// `d`
    Decimal,
    /// `x`
    LowerHex,
    /// `X`
    UpperHex,
    /// `o`
    Octal,
    /// `c`
    Character,
}

#[derive(Clone, Copy)]
pub struct Directive {
    /// `-`: the text stands at the left.
    pub left: bool,
    /// `0`: zeros before a number.
    pub zeros: bool,
    /// `+`: a sign before a number that is not negative.
    pub plus: bool,
    /// The least number of characters.
    pub width: usize,
    pub conversion: Conversion,
    /// Its bytes behind the `%`.
    pub size: usize,
}

fn is_flag(b: u8) -> bool
    ensures { result ≡ is_flag b }
{
    b == b'-' || (b == b'0' || b == b'+')
}

fn flags_len(bytes: &[u8]) -> usize
    ensures prefix { result ≡ prefix_len is_flag bytes.now }
    ensures within { result ≤ length bytes.now }
{
    let mut n = 0;
    let mut rest = bytes;
    while let [b, after @ ..] = rest {
        if !is_flag(*b) {
            return n;
        }
        n += 1;
        rest = after;
    }
    n
}

fn digits_len(bytes: &[u8]) -> usize
    ensures prefix { result ≡ prefix_len is_ascii_digit bytes.now }
    ensures within { result ≤ length bytes.now }
{
    let mut n = 0;
    let mut rest = bytes;
    while let [b, after @ ..] = rest {
        if !b.is_ascii_digit() {
            return n;
        }
        n += 1;
        rest = after;
    }
    n
}

fn has_byte(b: u8, bytes: &[u8]) -> bool
    ensures { result ≡ has_byte b bytes.now }
{
    bytes.contains(&b)
}

fn digit(b: u8) -> usize
    ensures value { result ≡ digit_value b }
    ensures small { result ≤ 36 }
{
    match b {
        b'0'..=b'9' => (b - b'0') as usize,
        b'A'..=b'Z' => (b - b'A') as usize + 10,
        b'a'..=b'z' => (b - b'a') as usize + 10,
        _ => 36,
    }
}

fn width_of(digits: &[u8]) -> Option<usize>
    ensures { result ≡ width_of digits.now }
{
    match digits {
        [] => Some(0),
        [a] => Some(digit(*a)),
        [a, b] => Some(digit(*a) * 10 + digit(*b)),
        [a, b, c] => Some((digit(*a) * 10 + digit(*b)) * 10 + digit(*c)),
        [_, _, _, _, ..] => None,
    }
}

fn conversion_at(bytes: &[u8]) -> Option<Conversion>
    ensures letter { option_map letter_of result ≡ letter_at bytes.now }
    ensures first { IfSome result (λ _. (0 < length bytes.now) × (slice_index bytes.now 0 < 128)) }
{
    match bytes {
        [b's', ..] => Some(Conversion::Text),
        [b'd', ..] => Some(Conversion::Decimal),
        [b'x', ..] => Some(Conversion::LowerHex),
        [b'X', ..] => Some(Conversion::UpperHex),
        [b'o', ..] => Some(Conversion::Octal),
        [b'c', ..] => Some(Conversion::Character),
        _ => None,
    }
}

/// The directive that bytes begin with. `None` for a breach of its form.
pub fn directive_at(bytes: &[u8]) -> Option<Directive>
    ensures parts { option_map directive_of result ≡ directive_at bytes.now }
    ensures last { IfSome result (λ d. (0 < d.size) × (d.size ≤ length bytes.now) × (slice_index bytes.now (d.size - 1) < 128)) }
{
    let (flags, rest) = bytes.split_at(flags_len(bytes));
    let (digits, rest) = rest.split_at(digits_len(rest));
    let width = width_of(digits)?;
    let conversion = conversion_at(rest)?;
    Some(Directive {
        left: has_byte(b'-', flags),
        zeros: has_byte(b'0', flags),
        plus: has_byte(b'+', flags),
        width,
        conversion,
        size: flags.len() + digits.len() + 1,
    })
}
