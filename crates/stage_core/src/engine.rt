//! The core: its log, and the tasks under way.
ghost use Rattle.std.specs.Prelude.{◌≡◌, ◌≢◌, ℕ, ◌+◌, ◌*◌, ◌<◌, ◌≤◌, List, [], length, IfOk, OnErr, ◌↔◌, true, false, slice_index, Err};
ghost use Rattle.stage_core.specs.Log.{value_of, Entry};
ghost use Rattle.stage_core.specs.Needs.{AreNeeds};
ghost use Rattle.stage_core.specs.Begins.{Begins};
ghost use Rattle.stage_core.specs.Schedule.{IsConsistent};
ghost use Rattle.stage_core.specs.Status.{status_of};
ghost use Rattle.stage_core.specs.Load.{IsAnswer, InClosure};
ghost use Rattle.stage_core.specs.Value.{IsTaskOf, AreNeedsOf};
ghost use Rattle.stage_core.specs.Machine.{start, requested, claimed, published, given_back, HoldsValue, IsOpen, IsReady, IsInProgress, IsKnown, is_done_at, outcomes};

use crate::answer::{Answer, AnswerError, faults_of, in_order, results_of};
use crate::claim::{Claim, NoClaim};
use crate::closure::{add_file, add_reachable};
use crate::log_rows::{LogRow, has_claim, has_request, outcome_count};
use crate::needs::all_needs;
use crate::ready::{are_finished, find_known, ready_task};
use crate::status::{RefStatus, status};
use crate::work::{Need, Outcome, StageOut};
use std::alloc::{AllocError, Global};
use std::marker::Model;
use std::snapshot::Snapshot;

/// A log of requests, claims and published outcomes, and the tasks under way. All its room is taken when it is made:
/// requests, claims, publishes and statuses take no memory.
#[derive(Drop)]
pub struct Core<O: StageOut> {
    // The project, for contracts alone.
    project: Snapshot<O::Project>,
    files: u32,
    rows: Vec<LogRow<O>>,
    // By file: the stage of its task under way, or 0.
    in_progress: Vec<u8>,
    // Room for the known files, and for those that a walk has visited.
    known: Vec<u32>,
    visited: Vec<u32>,
}

impl<O: StageOut> Model for Core<O> {
    ghost use Rattle.stage_core.specs.CoreState.{CoreValue};

    ghost Value = { CoreValue O.Project O };

    ghost use Rattle.std.specs.Prelude.{vec_capacity};
    ghost use Rattle.stage_core.specs.Rows.{log_of};
    ghost use Rattle.stage_core.specs.CoreState.{IsCoreState, state_of};

    ghost view = { λ c. record { state = state_of c.project.value (log_of c.rows.items) c.in_progress.items } };

    ghost invariant = { λ c. IsCoreState O.StageOut (state_of c.project.value (log_of c.rows.items) c.in_progress.items) c.files (vec_capacity c.rows) (vec_capacity c.known) (vec_capacity c.visited) };
}

impl<O: StageOut> Core<O> {
    /// A core of a project with this number of files.
    pub fn new(alloc: Global, project: &O::Project, files: u32) -> Result<Core<O>, AllocError>
        requires { files ≡ O.files project.now }
        ensures start { IfOk result (λ core. core.state ≡ start O.StageOut project.now) }
        ensures project { IfOk result (λ core. core.state.project ≡ project.now) }
        ensures idle { IfOk result (λ core. (file : ℕ) → slice_index core.state.in_progress file ≡ 0) }
    {
        let room = files as usize;
        let rows = Vec::with_capacity(alloc, 11 * room)?;
        let in_progress = vec![in alloc; 0u8; room]?;
        let known = Vec::with_capacity(alloc, room)?;
        let visited = Vec::with_capacity(alloc, room)?;
        Ok(Core {
            project: Snapshot::of(project),
            files,
            rows,
            in_progress,
            known,
            visited,
        })
    }

    /// The number of entries of the log.
    pub fn log_len(&self) -> u64
        ensures value { result ≡ length self.now.state.log }
        ensures few { result ≤ 11 * O.files self.now.state.project }
    {
        self.rows.len() as u64
    }

    /// Each outcome in the log holds the project's value, no task is published twice, at most five outcomes of a file
    /// are published, and while a known file is unfinished a task is ready or under way. It does nothing, and serves
    /// proofs of callers.
    pub fn is_consistent(&self)
        ensures consistent { IsConsistent O.StageOut self.now.state.project self.now.state }
    {
        let _ = &self.project;
    }

    /// Makes a file known. A repeat changes nothing.
    pub fn request(&mut self, file: u32)
        requires { file < O.files self.old.state.project }
        ensures after { self.new.state ≡ requested self.old.state file }
        ensures project { self.new.state.project ≡ self.old.state.project }
        ensures grows { Begins self.old.state.log self.new.state.log }
        ensures extends { (earlier : List (Entry O)) → Begins earlier self.old.state.log → Begins earlier self.new.state.log }
    {
        if !has_request(&self.rows, file) {
            self.rows.push_reserved(LogRow::Request(file));
        }
    }

    /// Takes a task that is ready, which is under way from now on.
    pub fn claim(&mut self) -> Result<Claim<O>, NoClaim>
        ensures task { IfOk result (λ claim. IsReady O.StageOut self.old.state.log self.old.state.in_progress claim.file claim.stage × (claim.project ≡ self.old.state.project) × (self.new.state ≡ claimed self.old.state claim.file claim.stage)) }
        ensures at { IfOk result (λ claim. claim.log ≡ self.new.state.log) }
        ensures begins { IfOk result (λ claim. Begins claim.log self.new.state.log) }
        ensures open { IfOk result (λ claim. IsOpen O.StageOut self.new.state.log claim.file claim.stage) }
        ensures next { IfOk result (λ claim. claim.stage ≡ length (outcomes self.new.state.log claim.file) + 1) }
        ensures all_done { (result ≡ Err NoClaim.AllDone) ↔ ((file : ℕ) → IsKnown O.StageOut self.old.state.log file → is_done_at (outcomes self.old.state.log file) 5 ≡ true) }
        ensures nothing_ready { (result ≡ Err NoClaim.NothingReady) ↔ (((file stage : ℕ) → IsReady O.StageOut self.old.state.log self.old.state.in_progress file stage → ⊥) × (result ≢ Err NoClaim.AllDone)) }
        ensures busy { result ≡ Err NoClaim.NothingReady → ((file : ℕ) × (stage : ℕ) × IsInProgress self.old.state.in_progress file stage) }
        ensures err { OnErr result (self.new.state ≡ self.old.state) }
        ensures project { self.new.state.project ≡ self.old.state.project }
        ensures grows { Begins self.old.state.log self.new.state.log }
        ensures extends { (earlier : List (Entry O)) → Begins earlier self.old.state.log → Begins earlier self.new.state.log }
    {
        match self.next_task() {
            Ok((file, stage)) => {
                self.start_task(file, stage);
                Ok(Claim {
                    core: Snapshot::of(self),
                    file,
                    stage,
                })
            }
            Err(none) => Err(none),
        }
    }

    /// A task that may be claimed.
    fn next_task(&mut self) -> Result<(u32, u8), NoClaim>
        ensures task { IfOk result (λ task. IsReady O.StageOut self.old.state.log self.old.state.in_progress task.0 task.1) }
        ensures all_done { (result ≡ Err NoClaim.AllDone) ↔ ((file : ℕ) → IsKnown O.StageOut self.old.state.log file → is_done_at (outcomes self.old.state.log file) 5 ≡ true) }
        ensures nothing_ready { (result ≡ Err NoClaim.NothingReady) ↔ (((file stage : ℕ) → IsReady O.StageOut self.old.state.log self.old.state.in_progress file stage → ⊥) × (result ≢ Err NoClaim.AllDone)) }
        ensures busy { result ≡ Err NoClaim.NothingReady → ((file : ℕ) × (stage : ℕ) × IsInProgress self.old.state.in_progress file stage) }
        ensures unchanged { self.new.state ≡ self.old.state }
    {
        find_known(&self.rows, self.files, &mut self.known);
        let task = ready_task(
            &self.rows,
            &self.in_progress,
            self.files,
            &self.known,
            &mut self.visited,
        );
        if let Some(task) = task {
            return Ok(task);
        }
        if are_finished(&self.rows, &self.known) {
            return Err(NoClaim::AllDone);
        }
        Err(NoClaim::NothingReady)
    }

    fn start_task(&mut self, file: u32, stage: u8)
        requires { IsReady O.StageOut self.old.state.log self.old.state.in_progress file stage }
        ensures taken { self.new.state ≡ claimed self.old.state file stage }
        ensures open { IsOpen O.StageOut self.new.state.log file stage }
        ensures next { stage ≡ length (outcomes self.new.state.log file) + 1 }
        ensures grows { Begins self.old.state.log self.new.state.log }
        ensures extends { (earlier : List (Entry O)) → Begins earlier self.old.state.log → Begins earlier self.new.state.log }
    {
        self.in_progress[file as usize] = stage;
        if !has_claim(&self.rows, file, stage) {
            self.rows.push_reserved(LogRow::Claim(file, stage));
        }
    }

    /// The files that the task needs, each with the outcome of the stage that the task needs of it, or with its last
    /// one where it was finished earlier.
    pub fn needs(&self, alloc: Global, claim: &Claim<O>) -> Result<Vec<Need<O>>, AllocError>
        requires project { claim.now.project ≡ self.now.state.project }
        requires task { IsOpen O.StageOut self.now.state.log claim.now.file claim.now.stage }
        ensures by_log { IfOk result (λ needs. AreNeeds O.StageOut (O.files self.now.state.project) self.now.state.log claim.now.file claim.now.stage needs.items) }
        ensures task { IfOk result (λ _. IsTaskOf O.StageOut self.now.state.project claim.now.file claim.now.stage) }
        ensures values { IfOk result (λ needs. AreNeedsOf O.StageOut self.now.state.project claim.now.file claim.now.stage needs.items) }
    {
        let file = claim.file;
        let stage = claim.stage;
        let files = self.files;
        if stage < 2 {
            return Ok(Vec::new(alloc));
        }
        let mut visited = Vec::with_capacity(alloc, files as usize)?;
        add_file(&mut visited, file, files);
        add_reachable(&self.rows, stage == 2, files, &mut visited);
        let needs = all_needs(alloc, &self.rows, file, stage, &visited)?;
        Ok(needs)
    }

    /// Logs the task's outcome, and ends the task. Where the stage is in the log already, nothing changes.
    pub fn publish(&mut self, claim: Claim<O>, outcome: Outcome<O>)
        requires project { claim.project ≡ self.old.state.project }
        requires task { IsOpen O.StageOut self.old.state.log claim.file claim.stage }
        requires value { HoldsValue O.StageOut self.old.state.project claim.file claim.stage (value_of outcome) }
        ensures after { self.new.state ≡ published self.old.state claim.file claim.stage (value_of outcome) }
        ensures project { self.new.state.project ≡ self.old.state.project }
        ensures few { length self.new.state.log ≤ 11 * O.files self.new.state.project }
        ensures grows { Begins self.old.state.log self.new.state.log }
        ensures extends { (earlier : List (Entry O)) → Begins earlier self.old.state.log → Begins earlier self.new.state.log }
    {
        let Claim {
            core: _,
            file,
            stage,
        } = claim;
        if stage as usize > outcome_count(&self.rows, file) {
            self.rows
                .push_reserved(LogRow::Publish(file, stage, outcome));
            self.in_progress[file as usize] = 0;
        }
    }

    /// Ends the task without an outcome: it is ready again. Where the stage is in the log already, nothing changes.
    pub fn give_back(&mut self, claim: Claim<O>)
        requires project { claim.project ≡ self.old.state.project }
        requires task { IsOpen O.StageOut self.old.state.log claim.file claim.stage }
        ensures after { self.new.state ≡ given_back self.old.state claim.file claim.stage }
        ensures same { self.new.state.log ≡ self.old.state.log }
        ensures project { self.new.state.project ≡ self.old.state.project }
        ensures few { length self.new.state.log ≤ 11 * O.files self.new.state.project }
        ensures grows { Begins self.old.state.log self.new.state.log }
        ensures extends { (earlier : List (Entry O)) → Begins earlier self.old.state.log → Begins earlier self.new.state.log }
    {
        let Claim {
            core: _,
            file,
            stage,
        } = claim;
        if stage as usize > outcome_count(&self.rows, file) {
            // Ready again.
            self.in_progress[file as usize] = 0u8;
        }
    }

    /// How far the file has come.
    pub fn status(&self, file: u32) -> RefStatus
        requires { file < O.files self.now.state.project }
        ensures { result ≡ status_of (outcomes self.now.state.log file) }
    {
        status(&self.rows, file)
    }

    /// The load of the file: the results of stage 5 of its closure, or the faults there, both by path.
    pub fn answer(&self, alloc: Global, file: u32) -> Result<Answer<O>, AnswerError>
        requires { file < O.files self.now.state.project }
        ensures load { IfOk result (λ answer. IsAnswer O.StageOut self.now.state.project file answer) }
        ensures finished { IfOk result (λ _. (other : ℕ) → InClosure O.StageOut self.now.state.project file other → is_done_at (outcomes self.now.state.log other) 5 ≡ true) }
        ensures unfinished { result ≡ Err AnswerError.Unfinished → ((other : ℕ) × InClosure O.StageOut self.now.state.project file other × (is_done_at (outcomes self.now.state.log other) 5 ≡ false)) }
    {
        let files = self.files;
        let mut visited = Vec::with_capacity(alloc, files as usize)?;
        add_file(&mut visited, file, files);
        add_reachable(&self.rows, false, files, &mut visited);
        if !are_finished(&self.rows, &visited) {
            return Err(AnswerError::Unfinished);
        }
        let closure = in_order(alloc, files, &visited)?;
        let faults = faults_of(alloc, &self.rows, &closure)?;
        if !faults.is_empty() {
            return Ok(Answer::Refused(faults));
        }
        let results = results_of(alloc, &self.rows, &closure)?;
        Ok(Answer::Ok(results))
    }
}
