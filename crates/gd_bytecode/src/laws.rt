//! Laws of code and its meaning.

ghost use Rattle.std.specs.Prelude.{◌≡◌, None};
ghost use Rattle.gd_bytecode.specs.Checks.{first_bad};
ghost use Rattle.gd_bytecode.specs.CodeLaws.{CallsAreFrugal, EachIsWell, EnoughGoings, InstructionsReadNoOther, LeavesNoOther, RunsReadNoOther};

use crate::file_code::Code;

/// More goings back than there are steps left change nothing, so the meaning of code is the same for any that suffice.
pub fn goings_back_suffice()
    ensures { EnoughGoings }
{}

/// A call gives no steps back.
pub fn calls_give_no_steps_back()
    ensures { CallsAreFrugal }
{}

/// In checked code all that each instruction names is in range: each register is below its function's number of registers.
pub fn checked_code_is_in_range(code: &Code)
    requires { first_bad code.now ≡ None }
    ensures { EachIsWell code.now }
{
    let _ = code;
}

/// Checked code reads no register that its function's number does not reach, but for `self` in register 0: whatever stands in the
/// others, a run has the same end, with the same value and world, and so does each instruction, with the same registers below
/// the number. What stands in the others stays or goes, and none of them is opened.
pub fn checked_code_reads_no_other_register(code: &Code)
    requires { first_bad code.now ≡ None }
    ensures same { RunsReadNoOther code.now }
    ensures each { InstructionsReadNoOther code.now }
    ensures most { LeavesNoOther code.now }
{
    let _ = code;
}
