//! Schedules of small projects.
ghost use Rattle.std.specs.Prelude.{◌≡◌, List, IfOk, IsTrue};
ghost use Rattle.stage_core.specs.Begins.{Begins};
ghost use Rattle.stage_core.specs.Log.{Entry, value_of};
ghost use Rattle.stage_core.specs.Machine.{HoldsValue, IsOpen};

use crate::answer::{Answer, AnswerError};
use crate::claim::{Claim, NoClaim};
use crate::engine::Core;
use crate::sample::{FAULT, SampleOut, SampleWork};
use crate::stage_work::StageWork;
use crate::status::RefStatus;
use crate::work::Outcome;
use std::alloc::{AllocError, Global};
use std::process::Abort;
use std::test::Fail;

/// The outcome of a task.
fn compute<W: StageWork>(
    alloc: Global,
    work: &W,
    core: &Core<W::Out>,
    claim: &Claim<W::Out>,
) -> Result<Outcome<W::Out>, AllocError>
    requires of_work { core.now.state.project ≡ W.project work.now }
    requires project { claim.now.project ≡ core.now.state.project }
    requires task { IsOpen W.Out.StageOut core.now.state.log claim.now.file claim.now.stage }
    ensures { IfOk result (λ outcome. HoldsValue W.Out.StageOut (W.project work.now) claim.now.file claim.now.stage (value_of outcome)) }
{
    let needs = core.needs(alloc, claim)?;
    work.compute(alloc, claim.file(), claim.stage(), &needs)
}

/// Publishes a task that is ready, and answers it.
fn step<W: StageWork>(
    alloc: Global,
    work: &W,
    core: &mut Core<W::Out>,
) -> Result<Option<(u32, u8)>, AllocError>
    requires { core.old.state.project ≡ W.project work.now }
    ensures { core.new.state.project ≡ W.project work.now }
{
    match core.claim() {
        Ok(claim) => {
            let task = (claim.file(), claim.stage());
            match compute(alloc, work, core, &claim) {
                Ok(outcome) => {
                    core.publish(claim, outcome);
                    Ok(Some(task))
                }
                Err(e) => {
                    core.give_back(claim);
                    Err(e)
                }
            }
        }
        Err(_) => Ok(None),
    }
}

/// Claims a task that has to be there.
fn claimed(rt: &impl Abort, core: &mut Core<SampleOut>) -> Claim<SampleOut>
    ensures project { result.project ≡ core.old.state.project }
    ensures same { core.new.state.project ≡ core.old.state.project }
    ensures begins { Begins result.log core.new.state.log }
    ensures extends { (earlier : List (Entry SampleOut)) → Begins earlier core.old.state.log → Begins earlier core.new.state.log }
{
    match core.claim() {
        Ok(claim) => claim,
        Err(none) => panic!(rt; "{none:?}"),
    }
}

/// Once file 0 of the star is parsed, its stage 2 and stage 1 of its links are ready.
#[test]
fn three_tasks_ready(rt: HostRuntime) -> Result<(), Fail> {
    let work = SampleWork::new(rt.alloc(), false)?;
    let mut core = Core::<SampleOut>::new(rt.alloc(), work.project(), work.files())?;
    core.request(0);
    assert_eq!(rt; step(rt.alloc(), &work, &mut core)?, Some((0, 1)));
    let first = claimed(&rt, &mut core);
    let second = claimed(&rt, &mut core);
    let third = claimed(&rt, &mut core);
    let tasks = [
        (first.file(), first.stage()),
        (second.file(), second.stage()),
        (third.file(), third.stage()),
    ];
    for task in [(0, 2), (1, 1), (2, 1)] {
        assert!(rt; tasks.contains(&task), "{task:?}");
    }
    first.stays_open(&core);
    core.give_back(first);
    second.stays_open(&core);
    core.give_back(second);
    third.stays_open(&core);
    core.give_back(third);
    Ok(())
}

/// Why there is no task.
fn no_claim(core: &mut Core<SampleOut>) -> Option<NoClaim>
    ensures same { core.new.state.project ≡ core.old.state.project }
    ensures extends { (earlier : List (Entry SampleOut)) → Begins earlier core.old.state.log → Begins earlier core.new.state.log }
{
    match core.claim() {
        Ok(claim) => {
            core.give_back(claim);
            None
        }
        Err(none) => Some(none),
    }
}

/// While the three tasks are under way, a fourth claim finds nothing.
#[test]
fn fourth_claim_waits(rt: HostRuntime) -> Result<(), Fail> {
    let work = SampleWork::new(rt.alloc(), false)?;
    let mut core = Core::<SampleOut>::new(rt.alloc(), work.project(), work.files())?;
    core.request(0);
    step(rt.alloc(), &work, &mut core)?;
    let first = claimed(&rt, &mut core);
    let second = claimed(&rt, &mut core);
    let third = claimed(&rt, &mut core);
    assert_eq!(rt; no_claim(&mut core), Some(NoClaim::NothingReady));
    assert_eq!(rt; core.log_len(), 6);
    first.stays_open(&core);
    core.give_back(first);
    second.stays_open(&core);
    core.give_back(second);
    third.stays_open(&core);
    core.give_back(third);
    Ok(())
}

/// Of the three tasks, the one that is given back is ready again.
#[test]
fn given_back_is_ready(rt: HostRuntime) -> Result<(), Fail> {
    let work = SampleWork::new(rt.alloc(), false)?;
    let mut core = Core::<SampleOut>::new(rt.alloc(), work.project(), work.files())?;
    core.request(0);
    step(rt.alloc(), &work, &mut core)?;
    let first = claimed(&rt, &mut core);
    let second = claimed(&rt, &mut core);
    let third = claimed(&rt, &mut core);
    assert_eq!(rt; (second.file(), second.stage()), (1, 1));
    second.stays_open(&core);
    core.give_back(second);
    let again = claimed(&rt, &mut core);
    assert_eq!(rt; (again.file(), again.stage()), (1, 1));
    again.stays_open(&core);
    core.give_back(again);
    first.stays_open(&core);
    core.give_back(first);
    third.stays_open(&core);
    core.give_back(third);
    Ok(())
}

/// Does tasks until none is ready, and answers how many there were.
fn run<W: StageWork>(alloc: Global, work: &W, core: &mut Core<W::Out>) -> Result<u32, AllocError>
    requires { core.old.state.project ≡ W.project work.now }
    ensures { core.new.state.project ≡ W.project work.now }
{
    for tasks in 0..20 {
        if step(alloc, work, core)?.is_none() {
            return Ok(tasks);
        }
    }
    Ok(20)
}

/// The files of an answer and the stages of their results, or those that were refused with stage 0.
fn files_of(alloc: Global, answer: Answer<SampleOut>) -> Result<Vec<(u32, u8)>, AllocError> {
    let mut files = Vec::new(alloc);
    match answer {
        Answer::Ok(results) => {
            for (file, out) in &results {
                files.push((*file, out.stage))?;
            }
        }
        Answer::Refused(faults) => {
            for (file, _) in &faults {
                files.push((*file, 0))?;
            }
        }
    }
    Ok(files)
}

/// File 3 of the tangle has this status and no answer yet; then its next stage is done.
fn goes_on(
    rt: &impl Abort,
    alloc: Global,
    work: &SampleWork,
    core: &mut Core<SampleOut>,
    status: RefStatus,
) -> Result<(), Fail>
    requires project { core.old.state.project ≡ work.now.project }
    requires tangled { IsTrue work.now.project.tangled }
    ensures { core.new.state.project ≡ work.now.project }
{
    assert_eq!(rt; core.status(3), status);
    match core.answer(alloc, 3) {
        Ok(_) => panic!(rt; "an answer at {status:?}"),
        Err(none) => assert_eq!(rt; none, AnswerError::Unfinished),
    }
    step(alloc, work, core)?;
    Ok(())
}

/// A file goes through its stages one by one. A repeat of its request is not logged.
#[test]
fn status_of_each_stage(rt: HostRuntime) -> Result<(), Fail> {
    let work = SampleWork::new(rt.alloc(), true)?;
    let mut core = Core::<SampleOut>::new(rt.alloc(), work.project(), work.files())?;
    core.request(3);
    core.request(3);
    assert_eq!(rt; core.log_len(), 1);
    goes_on(&rt, rt.alloc(), &work, &mut core, RefStatus::Empty)?;
    goes_on(&rt, rt.alloc(), &work, &mut core, RefStatus::Parsed)?;
    goes_on(
        &rt,
        rt.alloc(),
        &work,
        &mut core,
        RefStatus::InheritanceSolved,
    )?;
    goes_on(
        &rt,
        rt.alloc(),
        &work,
        &mut core,
        RefStatus::InterfaceSolved,
    )?;
    goes_on(&rt, rt.alloc(), &work, &mut core, RefStatus::FullySolved)?;
    assert_eq!(rt; core.status(3), RefStatus::Compiled);
    assert_eq!(rt; core.status(0), RefStatus::Empty);
    Ok(())
}

/// An answer is by path, whatever order the files were done in.
#[test]
fn results_by_path(rt: HostRuntime) -> Result<(), Fail> {
    let work = SampleWork::new(rt.alloc(), false)?;
    let mut core = Core::<SampleOut>::new(rt.alloc(), work.project(), work.files())?;
    core.request(2);
    assert_eq!(rt; run(rt.alloc(), &work, &mut core)?, 5);
    core.request(0);
    assert_eq!(rt; run(rt.alloc(), &work, &mut core)?, 10);
    assert_eq!(rt; core.log_len(), 32);
    let answer = core.answer(rt.alloc(), 0)?;
    assert_eq!(rt;
        files_of(rt.alloc(), answer)?.as_slice(),
        [(0, 5), (1, 5), (2, 5)].as_slice()
    );
    let answer = core.answer(rt.alloc(), 2)?;
    assert_eq!(rt;
        files_of(rt.alloc(), answer)?.as_slice(),
        [(2, 5)].as_slice()
    );
    Ok(())
}

/// A refused file blocks those that lead to it, through a cycle too, and is the only one that their answers list.
#[test]
fn refused_in_a_cycle(rt: HostRuntime) -> Result<(), Fail> {
    let work = SampleWork::new(rt.alloc(), true)?;
    let mut core = Core::<SampleOut>::new(rt.alloc(), work.project(), work.files())?;
    core.request(0);
    // Three stages of three files, and stage 4 of the two that are blocked there.
    assert_eq!(rt; run(rt.alloc(), &work, &mut core)?, 11);
    assert_eq!(rt; core.status(0), RefStatus::Blocked);
    assert_eq!(rt; core.status(1), RefStatus::Blocked);
    assert_eq!(rt; core.status(2), RefStatus::Refused(FAULT));
    for file in 0..3 {
        match core.answer(rt.alloc(), file)? {
            Answer::Ok(_) => panic!(rt; "no fault at {file}"),
            Answer::Refused(faults) => assert_eq!(rt; faults.as_slice(), [(2, FAULT)].as_slice()),
        }
    }
    assert_eq!(rt; no_claim(&mut core), Some(NoClaim::AllDone));
    Ok(())
}

/// Files have paths, and are found by them.
#[test]
fn found_by_path(rt: HostRuntime) -> Result<(), Fail> {
    let work = SampleWork::new(rt.alloc(), false)?;
    for file in 0..3 {
        assert_eq!(rt; work.find(work.path(file)), Some(file));
    }
    Ok(())
}
