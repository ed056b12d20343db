// Values under the directives of a pattern.
ghost use Rattle.std.specs.Prelude.{◌≡◌};
ghost use Rattle.variant_values.specs.Formats.{padded_text, padded_number, number_text, sign_of};
ghost use Rattle.string_calls.specs.Directives.{directive_of};
ghost use Rattle.string_calls.specs.Writes.{Writes};

use crate::builders::StringBuilder;
use crate::directives::{Conversion, Directive};
use crate::searches::count_chars;
use itoa::Buffer;
use std::alloc::Global;
use variant_values::faults::Trouble;

fn sign_of(plus: bool, n: i64) -> &'static str
    ensures { result.now ≡ sign_of plus n }
{
    if n < 0 {
        "-"
    } else if plus {
        "+"
    } else {
        ""
    }
}

/// A sign and digits, with blanks or zeros up to the width.
fn write_padded_number(
    out: &mut StringBuilder,
    d: &Directive,
    sign: &str,
    digits: &str,
) -> Result<(), Trouble>
    ensures { Writes out.old out.new result (padded_number (directive_of d.now) sign.now digits.now) }
{
    let missing = d.width.saturating_sub(sign.len() + digits.len());
    if d.left {
        out.write_both(sign, digits)?;
        return out.write_repeated(" ", missing);
    }
    if d.zeros {
        out.write(sign)?;
        out.write_repeated("0", missing)?;
        return out.write(digits);
    }
    out.write_repeated(" ", missing)?;
    out.write_both(sign, digits)
}

/// A number's sign and the digits of its size, with blanks or zeros up to the width.
pub fn write_number(
    alloc: Global,
    out: &mut StringBuilder,
    d: &Directive,
    n: i64,
) -> Result<(), Trouble>
    ensures { Writes out.old out.new result (number_text (directive_of d.now) n) }
{
    let sign = sign_of(d.plus, n);
    let size = n.unsigned_abs();
    match d.conversion {
        Conversion::LowerHex => {
            let digits = format!(in alloc; "{size:x}")?;
            write_padded_number(out, d, sign, digits.as_str())
        }
        Conversion::UpperHex => {
            let digits = format!(in alloc; "{size:X}")?;
            write_padded_number(out, d, sign, digits.as_str())
        }
        Conversion::Octal => {
            let digits = format!(in alloc; "{size:o}")?;
            write_padded_number(out, d, sign, digits.as_str())
        }
        _ => {
            let mut digits = Buffer::new();
            write_padded_number(out, d, sign, digits.format(size))
        }
    }
}

/// A text with blanks up to the width.
pub fn write_padded_text(out: &mut StringBuilder, d: &Directive, text: &str) -> Result<(), Trouble>
    ensures { Writes out.old out.new result (padded_text (directive_of d.now) text.now) }
{
    let missing = d.width.saturating_sub(count_chars(text));
    if d.left {
        out.write(text)?;
        out.write_repeated(" ", missing)
    } else {
        out.write_repeated(" ", missing)?;
        out.write(text)
    }
}
