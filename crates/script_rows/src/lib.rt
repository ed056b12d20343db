//! Worked runs of scripts, whose texts were written by hand: the meaning of scripts gives exactly these.
#![tactic(auto)]

ghost use Rattle.script_rows.specs.FirstRows.{FirstRows};
ghost use Rattle.script_rows.specs.ExpressionRows.{ExpressionRows};
ghost use Rattle.script_rows.specs.NativeRows.{NativeRows};
ghost use Rattle.script_rows.specs.CallRows.{CallRows};
ghost use Rattle.script_rows.specs.NameRows.{NameRows};
ghost use Rattle.script_rows.specs.ClassRows.{ClassRows};
ghost use Rattle.script_rows.specs.TypeRows.{TypeRows};
ghost use Rattle.script_rows.specs.VariableRows.{VariableRows};
ghost use Rattle.script_rows.specs.StatementRows.{StatementRows};
ghost use Rattle.script_rows.specs.PatternRows.{PatternRows};
ghost use Rattle.script_rows.specs.EmissionRows.{EmissionRows};
ghost use Rattle.script_rows.specs.SignalRows.{SignalRows};
ghost use Rattle.script_rows.specs.TreeRows.{TreeRows};

/// What whole runs print and how they end, with steps and objects left, or with a fault and its line: of first scripts
/// (`first`), and with each form of expressions, native calls, calls, names, classes, types, variables, statements and patterns.
/// Emissions are worked with connections that no script makes yet (`emissions`, `signals`), and some scripts begin as trees
/// (`trees`).
pub fn scripts_run_as_worked_out()
    ensures first { FirstRows }
    ensures expressions { ExpressionRows }
    ensures natives { NativeRows }
    ensures calls { CallRows }
    ensures names { NameRows }
    ensures classes { ClassRows }
    ensures types { TypeRows }
    ensures variables { VariableRows }
    ensures statements { StatementRows }
    ensures patterns { PatternRows }
    ensures emissions { EmissionRows }
    ensures signals { SignalRows }
    ensures trees { TreeRows }
{}
