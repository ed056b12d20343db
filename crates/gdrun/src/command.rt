// What the words of the command line ask for.
ghost use Rattle.std.specs.Prelude.{◌≤◌};

use gd_syntax::ResPath;

/// `script DIR PATH [WORKERS [STEPS]]`: a script's path, and the steps that its run may take.
#[derive(Drop)]
pub struct ScriptCommand {
    pub path: ResPath,
    pub steps: u64,
    ghost allowed: { 1 ≤ steps },
}
