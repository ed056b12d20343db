//! Rows of calls by one pass, and two threads over one cache.
ghost use Rattle.std.specs.Prelude.{◌≡◌, IfOk};
ghost use mathlib.Core.List.{IsPrefix};
ghost use Rattle.turn_lock.specs.Passes.{seen_by};
ghost use Rattle.script_cache.specs.Entries.{IsCachePass, IsTaskOfPass};

use crate::cache::{CachePass, ScriptCache};
use crate::errors::{CacheAnswerError, ClaimError, NoRaise, RequestError, StatusError};
use crate::gate::{Gate, NoGate};
use crate::job::{Finished, Job};
use crate::sample::{FAULT, SampleOut, SampleWork};
use gd_syntax::{PathError, ResPath};
use stage_core::{Answer, RefStatus};
use std::alloc::Global;
use std::process::Abort;
use std::sync::Wait;
use std::sync::atomic::{AtomicU64, Ordering};
use std::test::Fail;
use std::thread::{Threads, join};

// A thread makes so many turns at most.
const TURNS: u64 = 200_000_000;

type Cache = ScriptCache<SampleWork>;

type SamplePass = CachePass<SampleOut>;

/// The files of the tangle. The star has the first three.
#[derive(Drop)]
struct Paths {
    a: ResPath,
    b: ResPath,
    c: ResPath,
}

impl Paths {
    fn new(alloc: Global) -> Result<Paths, PathError> {
        Ok(Paths {
            a: ResPath::new(alloc, "res://a.gd")?,
            b: ResPath::new(alloc, "res://b.gd")?,
            c: ResPath::new(alloc, "res://c.gd")?,
        })
    }
}

/// A task that has to be there.
fn claimed(rt: &impl Abort, alloc: Global, cache: &Cache, pass: &mut SamplePass) -> Job<SampleOut>
    requires { IsCachePass cache.now.lock pass.old }
    ensures pass { IsCachePass cache.now.lock pass.new }
    ensures seen { IsPrefix (seen_by pass.old) (seen_by pass.new) }
    ensures job { IsTaskOfPass cache.now.work.project result pass.new }
{
    match cache.try_claim(alloc, pass) {
        Ok(job) => job,
        Err(none) => panic!(rt; "{none:?}"),
    }
}

/// Why there is no task.
fn no_claim(
    rt: &impl Abort,
    alloc: Global,
    cache: &Cache,
    pass: &mut SamplePass,
) -> Option<ClaimError>
    requires { IsCachePass cache.now.lock pass.old }
    ensures pass { IsCachePass cache.now.lock pass.new }
    ensures seen { IsPrefix (seen_by pass.old) (seen_by pass.new) }
{
    match cache.try_claim(alloc, pass) {
        Ok(job) => {
            give_back(rt, cache, pass, job);
            None
        }
        Err(none) => Some(none),
    }
}

/// Gives the task back, which no other pass may hinder.
fn give_back(rt: &impl Abort, cache: &Cache, pass: &mut SamplePass, job: Job<SampleOut>)
    requires pass { IsCachePass cache.now.lock pass.old }
    requires job { IsTaskOfPass cache.now.work.project job pass.old }
    ensures pass { IsCachePass cache.now.lock pass.new }
    ensures seen { IsPrefix (seen_by pass.old) (seen_by pass.new) }
{
    match cache.try_give_back(pass, job) {
        Ok(()) => {}
        Err(_job) => panic!(rt; "held"),
    }
}

/// While two files without links are parsed, nothing else is ready.
#[test]
fn two_tasks_of_two_files(rt: HostRuntime) -> Result<(), Fail> {
    let alloc = rt.alloc();
    let paths = Paths::new(alloc)?;
    let (cache, mut pass) = ScriptCache::open(alloc, SampleWork::new(alloc, false)?)?;
    assert_eq!(rt;
        no_claim(&rt, alloc, &cache, &mut pass),
        Some(ClaimError::AllDone)
    );
    assert_eq!(rt; cache.try_request(&mut pass, &paths.b), Ok(()));
    assert_eq!(rt; cache.try_request(&mut pass, &paths.c), Ok(()));
    let first = claimed(&rt, alloc, &cache, &mut pass);
    let second = claimed(&rt, alloc, &cache, &mut pass);
    let none = no_claim(&rt, alloc, &cache, &mut pass);
    let status = cache.try_status(&mut pass, &paths.b);
    let answer = cache.try_answer(alloc, &mut pass, &paths.b);
    let tasks = [
        (first.file(), first.stage()),
        (second.file(), second.stage()),
    ];
    give_back(&rt, &cache, &mut pass, first);
    give_back(&rt, &cache, &mut pass, second);
    assert!(rt; tasks.contains(&(1, 1)) && tasks.contains(&(2, 1)));
    assert_eq!(rt; none, Some(ClaimError::NothingReady));
    assert_eq!(rt; status, Ok(RefStatus::Empty));
    match answer {
        Ok(_) => panic!(rt; "an answer of a file that is not parsed"),
        Err(none) => assert_eq!(rt; none, CacheAnswerError::Unfinished),
    }
    Ok(())
}

/// A status and a load of a file that nobody requested request nothing.
#[test]
fn looks_request_nothing(rt: HostRuntime) -> Result<(), Fail> {
    let alloc = rt.alloc();
    let paths = Paths::new(alloc)?;
    let (cache, mut pass) = ScriptCache::open(alloc, SampleWork::new(alloc, false)?)?;
    let status = cache.try_status(&mut pass, &paths.b);
    let answer = cache.try_answer(alloc, &mut pass, &paths.b);
    let none = no_claim(&rt, alloc, &cache, &mut pass);
    assert_eq!(rt; status, Ok(RefStatus::Empty));
    assert_eq!(rt; answer.err(), Some(CacheAnswerError::Unfinished));
    assert_eq!(rt; none, Some(ClaimError::AllDone));
    Ok(())
}

/// A path that the project does not have is told of first.
#[test]
fn no_such_file(rt: HostRuntime) -> Result<(), Fail> {
    let alloc = rt.alloc();
    let path = ResPath::new(alloc, "res://z.gd")?;
    let (cache, mut pass) = ScriptCache::open(alloc, SampleWork::new(alloc, true)?)?;
    let none = RequestError::NoSuchFile;
    assert_eq!(rt; cache.try_request(&mut pass, &path), Err(none));
    assert_eq!(rt; cache.request(&rt, &mut pass, &path), Err(none));
    assert_eq!(rt;
        cache.try_status(&mut pass, &path),
        Err(StatusError::NoSuchFile)
    );
    match cache.try_answer(alloc, &mut pass, &path) {
        Ok(_) => panic!(rt; "an answer without a file"),
        Err(none) => assert_eq!(rt; none, CacheAnswerError::NoSuchFile),
    }
    match cache.answer(&rt, alloc, &mut pass, &path) {
        Ok(_) => panic!(rt; "an answer without a file"),
        Err(none) => assert_eq!(rt; none, CacheAnswerError::NoSuchFile),
    }
    Ok(())
}

/// How far a status has come: a later one is no lower.
fn rank(status: RefStatus) -> u8 {
    match status {
        RefStatus::Empty => 0,
        RefStatus::Parsed => 1,
        RefStatus::InheritanceSolved => 2,
        RefStatus::InterfaceSolved => 3,
        RefStatus::FullySolved => 4,
        RefStatus::Compiled => 5,
        RefStatus::Refused(_) => 6,
        RefStatus::Blocked => 7,
    }
}

/// The rank of the file's status, which is no lower than what the pass saw before.
fn look(rt: &impl Abort, cache: &Cache, pass: &mut SamplePass, path: &ResPath, before: u8) -> u8
    requires { IsCachePass cache.now.lock pass.old }
    ensures { IsCachePass cache.now.lock pass.new }
{
    match cache.try_status(pass, path) {
        Ok(status) => {
            let now = rank(status);
            assert!(rt; before <= now, "a status went back");
            now
        }
        Err(StatusError::Held) => before,
        Err(StatusError::NoSuchFile) => panic!(rt; "no file"),
    }
}

/// Requests the file.
fn request_file(rt: &impl Abort, cache: &Cache, pass: &mut SamplePass, path: &ResPath)
    requires { IsCachePass cache.now.lock pass.old }
    ensures { IsCachePass cache.now.lock pass.new }
{
    for _ in 0..TURNS {
        match cache.try_request(pass, path) {
            Ok(()) => return,
            Err(RequestError::Held) => {}
            Err(RequestError::NoSuchFile) => panic!(rt; "no file"),
        }
    }
    panic!(rt; "too many turns")
}

/// Publishes the task.
fn publish(rt: &impl Abort, cache: &Cache, pass: &mut SamplePass, mut done: Finished<SampleOut>)
    requires pass { IsCachePass cache.now.lock pass.old }
    requires done { IsTaskOfPass cache.now.work.project done.task pass.old }
    ensures { IsCachePass cache.now.lock pass.new }
{
    for _ in 0..TURNS {
        match cache.try_publish(pass, done) {
            Ok(_) => return,
            Err(back) => done = back,
        }
    }
    panic!(rt; "too many turns")
}

/// Does a task, if one is ready, and says whether each known file is finished.
fn take_turn(rt: &impl Abort, alloc: Global, cache: &Cache, pass: &mut SamplePass) -> bool
    requires { IsCachePass cache.now.lock pass.old }
    ensures { IsCachePass cache.now.lock pass.new }
{
    match cache.try_claim(alloc, pass) {
        Ok(job) => match cache.compute(alloc, job) {
            Ok(done) => publish(rt, cache, pass, done),
            Err(_job) => panic!(rt; "no memory"),
        },
        Err(ClaimError::AllDone) => return true,
        Err(ClaimError::NothingReady | ClaimError::Held) => {}
        Err(ClaimError::NoMemory) => panic!(rt; "no memory"),
    }
    false
}

/// Requests the file, and does tasks until each known file is finished. Between them no status goes back.
fn work_on(
    rt: &impl Abort,
    alloc: Global,
    cache: &Cache,
    mut pass: SamplePass,
    paths: &Paths,
    path: &ResPath,
) -> SamplePass
    requires { IsCachePass cache.now.lock pass }
    ensures { IsCachePass cache.now.lock result }
{
    request_file(rt, cache, &mut pass, path);
    let mut ranks = (0u8, 0u8, 0u8);
    for _ in 0..TURNS {
        ranks.0 = look(rt, cache, &mut pass, &paths.a, ranks.0);
        ranks.1 = look(rt, cache, &mut pass, &paths.b, ranks.1);
        ranks.2 = look(rt, cache, &mut pass, &paths.c, ranks.2);
        if take_turn(rt, alloc, cache, &mut pass) {
            return pass;
        }
    }
    panic!(rt; "too many turns")
}

fn work_by_two<R: Threads + Abort + Sync>(
    rt: &R,
    alloc: Global,
    cache: &Cache,
    mut one: SamplePass,
    paths: &Paths,
) -> SamplePass
    requires { IsCachePass cache.now.lock one }
    ensures { IsCachePass cache.now.lock result }
{
    let two = cache.split_pass(&mut one);
    let (mut one, two) = join(
        rt,
        || -> SamplePass
            requires { IsCachePass cache.now.lock one }
            ensures { IsCachePass cache.entry.now.lock result }
        { work_on(rt, alloc, cache, one, paths, &paths.a) },
        || -> SamplePass
            requires { IsCachePass cache.now.lock two }
            ensures { IsCachePass cache.entry.now.lock result }
        { work_on(rt, alloc, cache, two, paths, &paths.c) },
    );
    cache.join_pass(&mut one, two);
    one
}

/// Two threads finish all files. The pass that was joined sees what both did.
#[test]
fn two_threads_finish_all(rt: HostRuntime) -> Result<(), Fail> {
    let alloc = rt.alloc();
    let paths = Paths::new(alloc)?;
    let (cache, pass) = ScriptCache::open(alloc, SampleWork::new(alloc, false)?)?;
    let mut pass = work_by_two(&rt, alloc, &cache, pass, &paths);
    assert_eq!(rt;
        cache.try_status(&mut pass, &paths.a),
        Ok(RefStatus::Compiled)
    );
    assert_eq!(rt;
        cache.try_status(&mut pass, &paths.b),
        Ok(RefStatus::Compiled)
    );
    assert_eq!(rt;
        cache.try_status(&mut pass, &paths.c),
        Ok(RefStatus::Compiled)
    );
    match cache.answer(&rt, alloc, &mut pass, &paths.a) {
        Ok(Answer::Ok(results)) => {
            let mut files = Vec::new(alloc);
            for (file, out) in &results {
                files.push((*file, out.stage))?;
            }
            assert_eq!(rt; files.as_slice(), [(0, 5), (1, 5), (2, 5)].as_slice());
        }
        Ok(Answer::Refused(_)) => panic!(rt; "a fault"),
        Err(none) => panic!(rt; "{none:?}"),
    }
    Ok(())
}

/// Counts what it is told.
#[derive(Drop)]
struct Counts {
    before: AtomicU64,
    after: AtomicU64,
}

impl Gate for Counts {
    fn before(&self, _path: &ResPath, _stage: u8) {
        self.before.fetch_add(1, Ordering::SeqCst);
    }

    fn after(&self, _path: &ResPath, _stage: u8) {
        self.after.fetch_add(1, Ordering::SeqCst);
    }
}

/// Requests the file, and does tasks until each known file is finished. Answers how many it did.
fn raise_all<R: Wait + Abort, G: Gate>(
    rt: &R,
    alloc: Global,
    cache: &Cache,
    mut pass: SamplePass,
    path: &ResPath,
    gate: &G,
) -> (SamplePass, u64)
    requires { IsCachePass cache.now.lock pass }
    ensures { IsCachePass cache.now.lock result.0 }
{
    assert_eq!(rt; cache.request(rt, &mut pass, path), Ok(()));
    let mut tasks = 0u64;
    for _ in 0..TURNS {
        match cache.raise(rt, alloc, &mut pass, gate) {
            Ok(_) => tasks = tasks.saturating_add(1),
            Err(NoRaise::AllDone) => return (pass, tasks),
            Err(NoRaise::NothingReady) => {}
            Err(NoRaise::NoMemory) => panic!(rt; "no memory"),
        }
    }
    panic!(rt; "too many turns")
}

fn raise_by_two<R: Threads + Wait + Abort + Sync, G: Gate>(
    rt: &R,
    alloc: Global,
    cache: &Cache,
    mut one: SamplePass,
    paths: &Paths,
    gate: &G,
) -> (SamplePass, u64)
    requires { IsCachePass cache.now.lock one }
    ensures { IsCachePass cache.now.lock result.0 }
{
    let two = cache.split_pass(&mut one);
    let ((mut one, by_one), (two, by_two)) = join(
        rt,
        || -> (SamplePass, u64)
            requires { IsCachePass cache.now.lock one }
            ensures { IsCachePass cache.entry.now.lock result.0 }
        { raise_all(rt, alloc, cache, one, &paths.a, gate) },
        || -> (SamplePass, u64)
            requires { IsCachePass cache.now.lock two }
            ensures { IsCachePass cache.entry.now.lock result.0 }
        { raise_all(rt, alloc, cache, two, &paths.a, gate) },
    );
    cache.join_pass(&mut one, two);
    (one, by_one.saturating_add(by_two))
}

/// Three stages of three files, and stage 4 of the two that are blocked there: eleven tasks, each done once.
#[test]
fn two_threads_raise(rt: HostRuntime) -> Result<(), Fail> {
    let alloc = rt.alloc();
    let paths = Paths::new(alloc)?;
    let (cache, pass) = ScriptCache::open(alloc, SampleWork::new(alloc, true)?)?;
    let gate = Counts {
        before: AtomicU64::new(0),
        after: AtomicU64::new(0),
    };
    let (mut pass, tasks) = raise_by_two(&rt, alloc, &cache, pass, &paths, &gate);
    let told = (
        gate.before.load(Ordering::SeqCst),
        gate.after.load(Ordering::SeqCst),
    );
    assert_eq!(rt; (tasks, told), (11, (11, 11)));
    assert_eq!(rt;
        cache.try_status(&mut pass, &paths.a),
        Ok(RefStatus::Blocked)
    );
    assert_eq!(rt;
        cache.try_status(&mut pass, &paths.b),
        Ok(RefStatus::Blocked)
    );
    assert_eq!(rt;
        cache.try_status(&mut pass, &paths.c),
        Ok(RefStatus::Refused(FAULT))
    );
    match cache.try_answer(alloc, &mut pass, &paths.a) {
        Ok(Answer::Ok(_)) => panic!(rt; "no fault"),
        Ok(Answer::Refused(faults)) => assert_eq!(rt; faults.as_slice(), [(2, FAULT)].as_slice()),
        Err(none) => panic!(rt; "{none:?}"),
    }
    let none = cache.raise(&rt, alloc, &mut pass, &NoGate);
    assert_eq!(rt; none.err(), Some(NoRaise::AllDone));
    Ok(())
}
