//! How far a file has come.
#![tactic(auto, using(crate::proofs::Scan::scans), unfolding(crate::specs::Machine::outcomes, crate::specs::Status::status_of))]

ghost use Rattle.std.specs.Prelude.{◌≡◌};
ghost use Rattle.stage_core.specs.Machine.{outcomes};
ghost use Rattle.stage_core.specs.Rows.{log_of};
ghost use Rattle.stage_core.specs.Status.{stage_status, status_of, status_fault};

use crate::log_rows::{LogRow, published};
use crate::work::Outcome;
use gd_syntax::LoadFault;

/// How far a file has come.
#[derive(Clone, Copy, Debug, PartialEq, Eq)]
pub enum RefStatus {
    Empty,
    Parsed,
    InheritanceSolved,
    InterfaceSolved,
    FullySolved,
    Compiled,
    Refused(LoadFault),
    Blocked,
}

impl RefStatus {
    /// The fault with which the file was refused.
    pub fn fault(&self) -> Option<LoadFault>
        ensures { result ≡ status_fault self.now }
    {
        match self {
            RefStatus::Refused(fault) => Some(*fault),
            _ => None,
        }
    }
}

/// The status of a file whose last stage that has a result is this one.
fn stage_status(stage: usize) -> RefStatus
    ensures { result ≡ stage_status stage }
{
    match stage {
        0 => RefStatus::Empty,
        1 => RefStatus::Parsed,
        2 => RefStatus::InheritanceSolved,
        3 => RefStatus::InterfaceSolved,
        4 => RefStatus::FullySolved,
        _ => RefStatus::Compiled,
    }
}

/// The status of the file, by the outcomes that the rows publish.
pub fn status<O>(rows: &[LogRow<O>], file: u32) -> RefStatus
    ensures { result ≡ status_of (outcomes (log_of rows.now) file) }
{
    let mut stage = 0;
    for row in rows {
        match published(row, file) {
            Some(Outcome::Done(_)) => stage += 1,
            Some(Outcome::Refused(fault)) => return RefStatus::Refused(*fault),
            Some(Outcome::Blocked) => return RefStatus::Blocked,
            None => {}
        }
    }
    stage_status(stage)
}
