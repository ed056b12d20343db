// What stands at the edges of a text, and whole numbers.
ghost use Rattle.std.specs.Prelude.{◌≡◌, not, length, ◌==◌, ◌&&◌};
ghost use Rattle.std.specs.Str.{all_ascii_digits};
ghost use Rattle.std.specs.Str.Parse.{without_leading_sign};
ghost use Rattle.variant_values.specs.StringMethods.{without_front, without_back, is_whole_number, whole_number};

/// A text without the code points up to 32 at its front.
pub fn without_front(text: &str) -> &str
    ensures { result.now ≡ without_front text.now }
{
    let mut rest = text;
    while rest.len() > 0 && rest.as_bytes()[0] <= 32 {
        rest = rest.split_at(1).1;
    }
    rest
}

/// A text without the code points up to 32 at its end.
pub fn without_back(text: &str) -> &str
    ensures { result.now ≡ without_back text.now }
{
    let mut rest = text;
    while rest.len() > 0 && rest.as_bytes()[rest.len() - 1] <= 32 {
        rest = rest.split_at(rest.len() - 1).0;
    }
    rest
}

fn without_sign(text: &[u8]) -> &[u8]
    ensures { result.now ≡ without_leading_sign text.now }
{
    match text {
        [b'-', digits @ ..] => digits,
        [b'+', digits @ ..] => digits,
        _ => text,
    }
}

fn are_digits(text: &[u8]) -> bool
    ensures { result ≡ all_ascii_digits text.now }
{
    let mut rest = text;
    while let [b, after @ ..] = rest {
        if !b.is_ascii_digit() {
            return false;
        }
        rest = after;
    }
    true
}

/// Whether a text is an optional sign and digits.
pub fn is_whole_number(text: &str) -> bool
    ensures { result ≡ is_whole_number text.now }
{
    let digits = without_sign(text.as_bytes());
    !digits.is_empty() && are_digits(digits)
}

/// The number that a text is, where it has 64 bits.
pub fn whole_number(text: &str) -> Option<i64>
    ensures { result ≡ whole_number text.now }
{
    text.parse::<i64>().ok()
}
