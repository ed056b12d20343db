// Places and faults as they are printed.
ghost use Rattle.std.specs.Prelude.{◌≡◌, ◌++◌, IfOk, string_bytes};
ghost use Rattle.std.specs.Fmt.{decimal};
ghost use Rattle.trees.specs.Texts.{fault_text, place_text};

use gd_syntax::{LoadFault, Place};
use std::alloc::{AllocError, Global};
use std::fmt::Write;

fn push_number(out: &mut String, number: u32) -> Result<(), AllocError>
    ensures { IfOk result (λ _. string_bytes out.new ≡ string_bytes out.old ++ decimal number) }
{
    write!(out, "{number}")
}

/// Writes `LINE:COLUMN`.
pub fn push_place(out: &mut String, place: Place) -> Result<(), AllocError>
    ensures { IfOk result (λ _. string_bytes out.new ≡ string_bytes out.old ++ place_text place) }
{
    push_number(out, place.line)?;
    out.push(':')?;
    push_number(out, place.column)
}

/// `LINE:COLUMN`
pub fn place_text(alloc: Global, place: Place) -> Result<String, AllocError>
    ensures { IfOk result (λ text. string_bytes text ≡ place_text place) }
{
    let mut out = String::new(alloc);
    push_place(&mut out, place)?;
    Ok(out)
}

/// `LINE:COLUMN KIND`
pub fn fault_text(alloc: Global, fault: LoadFault) -> Result<String, AllocError>
    ensures { IfOk result (λ text. string_bytes text ≡ fault_text fault) }
{
    let mut out = String::new(alloc);
    push_place(&mut out, fault.place)?;
    out.push(' ')?;
    out.push_str(fault.kind.as_str())?;
    Ok(out)
}
