// A folder and a sink in memory, for tests and for projects that are made.
ghost use Rattle.std.specs.Prelude.{◌≡◌, ◌==◌, ◌+◌, ◌≤◌, ◌<◌, ◌↔◌, ◌-◌, ℕ, [], length, vec_len, vec_capacity, IsTrue, All, IfOk, IfSome, IfNone, OnOk, IsErrOf, None, Some, bytes_eq, string_bytes};
ghost use Rattle.std.specs.List.{IsDistinct, list_any};
ghost use Rattle.std.specs.List.Sorted.{IsSortedByKey, IsPermutation};
ghost use Rattle.std.specs.FinMap.{find, get};
ghost use Rattle.std.proofs.lemmas.Map.Keys.{IsDistinct-prop};
ghost use Rattle.std.proofs.Props.{props};
ghost use Rattle.std.specs.Option.{option_map, option_copied};
ghost use Rattle.host_io.specs.Causes.{Calls, HasCause, after_call, risen, is_failing};
ghost use Rattle.host_io.specs.Folder.{texts, AreProjectPaths, HasProjectPaths, no_faults};
ghost use Rattle.host_io.specs.Sink.{Writes};
ghost use Rattle.host_io.specs.Paths.{path_order, same_path};
ghost use Rattle.host_io.specs.Memory.{entries_of, paths_of, files_of, AreProjectFiles};

use crate::folder::Faults;
use crate::{Folder, ListError, ReadError, Sink, WriteError};
use res_paths::is_project_path;
use std::alloc::{AllocError, Global};
use std::collections::BTreeSet;

/// The number of the next call, and the numbers of those that fail. They are looked through at each call, so a few are meant.
#[derive(Drop)]
struct Numbers {
    made: u64,
    failing: Vec<u64>,
}

impl Numbers {
    /// Counts a call, and says whether it fails.
    fn begin(&mut self) -> bool
        ensures fails { result ≡ list_any (λ n. n == self.old.made) self.old.failing.items }
        ensures made { self.new ≡ record self.old { made = risen self.old.made } }
    {
        let fails = self.failing.iter().any(|n| *n == self.made);
        self.made = self.made.saturating_add(1);
        fails
    }
}

/// A sink of so much room. A write that is listed, or does not fit, fails and takes nothing.
#[derive(Drop)]
pub struct MemorySink {
    taken: Vec<u8>,
    room: usize,
    numbers: Numbers,
    faults: u64,
    ghost reserved: { length taken.items + room ≤ vec_capacity taken },
}

impl MemorySink {
    ghost use Rattle.host_io.specs.MemorySink.{taken_by, writes_of, faults_of};

    /// A sink that takes `room` bytes and refuses the listed writes, by number from 0. It takes its memory at once.
    pub fn new(alloc: Global, room: usize, failing: Vec<u64>) -> Result<MemorySink, AllocError>
        ensures empty { IfOk result (λ sink. taken_by sink ≡ []) }
        ensures writes { IfOk result (λ sink. writes_of sink ≡ record { calls = record { made = 0; failing = failing.items }; room = room }) }
        ensures faults { IfOk result (λ sink. faults_of sink ≡ 0) }
    {
        let taken = Vec::with_capacity(alloc, room)?;
        Ok(MemorySink {
            taken,
            room,
            numbers: Numbers { made: 0, failing },
            faults: 0,
        })
    }

    /// The bytes of the writes that did not fail.
    pub fn taken(&self) -> &[u8]
        ensures { result.now ≡ taken_by self.now }
    {
        &self.taken
    }

    fn fail(&mut self) -> Result<(), WriteError>
        ensures same { taken_by self.new ≡ taken_by self.old }
        ensures writes { writes_of self.new ≡ writes_of self.old }
        ensures cause { HasCause WriteError.IoFail self.old.faults self.new.faults result }
        ensures fails { IsErrOf result WriteError.IoFail }
    {
        self.faults = self.faults.saturating_add(1);
        Err(WriteError::IoFail)
    }
}

impl Sink for MemorySink {
    ghost use Rattle.host_io.specs.MemorySink.{state_of};

    ghost state = { state_of };

    fn write_all(&mut self, bytes: &[u8]) -> Result<(), WriteError> {
        if self.numbers.begin() || bytes.len() > self.room {
            return self.fail();
        }
        self.room -= bytes.len();
        match self.taken.extend_from_slice(bytes) {
            Ok(()) => Ok(()),
            Err(_) => unreachable!(),
        }
    }
}

/// A folder of these files, in ascending order of paths.
#[derive(Drop)]
pub struct MemoryFolder {
    files: Vec<(String, Vec<u8>)>,
    numbers: Numbers,
    faults: Faults,
    ghost form: { AreProjectPaths (paths_of files.items) },
    ghost told: { HasProjectPaths (files_of files.items) },
    ghost once: { IsDistinct same_path (paths_of files.items) } by { IsDistinct-prop _ _ },
    ghost ascending: { IsSortedByKey (λ f. string_bytes f.0) path_order files.items } by { Prim.hlevel props },
}

impl MemoryFolder {
    ghost use Rattle.host_io.specs.MemoryFolder.{files_in, calls_of, faults_of};

    /// The names are distinct paths of files of a project.
    pub fn can_hold(alloc: Global, files: &[(String, Vec<u8>)]) -> Result<bool, AllocError>
        ensures { IfOk result (λ can. IsTrue can ↔ AreProjectFiles files.now) }
    {
        let mut seen = BTreeSet::new(alloc);
        for (path, _) in files {
            if !is_project_path(path.as_str()) {
                return Ok(false);
            }
            if !seen.insert(path.as_str())? {
                return Ok(false);
            }
        }
        Ok(true)
    }

    /// A folder of these files, whose listed calls fail, by number from 0. A read of a path that it lacks fails too.
    pub fn new(mut files: Vec<(String, Vec<u8>)>, failing: Vec<u64>) -> MemoryFolder
        requires { AreProjectFiles files.items }
        ensures files { files_in result ≡ files_of files.items }
        ensures calls { calls_of result ≡ record { made = 0; failing = failing.items } }
        ensures faults { faults_of result ≡ no_faults }
    {
        files.sort_unstable_by(|a, b| a.0.cmp(&b.0));
        MemoryFolder {
            files,
            numbers: Numbers { made: 0, failing },
            faults: Faults::NONE,
        }
    }
}

/// The paths, in the order of the files.
fn paths_in(alloc: Global, files: &[(String, Vec<u8>)]) -> Result<Vec<String>, AllocError>
    ensures { IfOk result (λ paths. texts paths.items ≡ paths_of files.now) }
{
    let mut paths = Vec::new(alloc);
    for (path, _) in files {
        paths.push(path.clone()?)?;
    }
    Ok(paths)
}

/// The bytes of the file at a path, among files in ascending order of paths.
fn find_file<'a>(files: &'a [(String, Vec<u8>)], path: &str) -> Option<&'a [u8]>
    requires once { IsDistinct same_path (paths_of files.now) }
    requires ascending { IsSortedByKey (λ f. string_bytes f.0) path_order files.now }
    ensures { option_copied result ≡ get (files_of files.now) path.now }
{
    match files.binary_search_by(|file| file.0.as_str().cmp(path)) {
        Ok(place) => Some(&files[place].1),
        Err(_) => None,
    }
}

impl Folder for MemoryFolder {
    ghost use Rattle.host_io.specs.MemoryFolder.{files_in, calls_of, faults_of};

    ghost files = { λ m. Some (files_in m) };

    ghost faults = { faults_of };

    ghost calls = { λ m. Some (calls_of m) };

    fn list(&mut self, alloc: Global, limit: usize) -> Result<Vec<String>, ListError> {
        if self.numbers.begin() {
            return self.faults.list_failed();
        }
        if self.files.len() > limit {
            return Err(ListError::TooMany);
        }
        Ok(paths_in(alloc, &self.files)?)
    }

    fn read(&mut self, alloc: Global, path: &str, limit: usize) -> Result<Vec<u8>, ReadError> {
        if self.numbers.begin() {
            return self.faults.read_failed(path);
        }
        match find_file(&self.files, path) {
            None => self.faults.read_failed(path),
            Some(bytes) if bytes.len() > limit => Err(ReadError::TooLong),
            Some(bytes) => Ok(bytes.to_vec(alloc)?),
        }
    }
}

#[cfg(test)]
mod tests {
    use super::*;
    use std::test::Fail;

    fn file(alloc: Global, path: &str, text: &[u8]) -> Result<(String, Vec<u8>), AllocError> {
        Ok((String::from_str(alloc, path)?, text.to_vec(alloc)?))
    }

    #[test]
    fn a_folder_fails_where_it_is_told_to(rt: HostRuntime) -> Result<(), Fail> {
        let alloc = rt.alloc();
        let files = vec![in alloc;
            file(alloc, "res://m.gd", b"m")?,
            file(alloc, "res://a.gd", b"abc")?,
        ]?;
        if !MemoryFolder::can_hold(alloc, &files)? {
            return Err(Fail::new("the paths are distinct"));
        }
        let mut folder = MemoryFolder::new(files, vec![in alloc; 0, 2]?);
        assert!(rt; matches!(folder.list(alloc, 2), Err(ListError::IoFail)));
        let paths = folder.list(alloc, 2)?;
        assert_eq!(rt; paths.len(), 2);
        assert!(rt; matches!(folder.read(alloc, "res://m.gd", 1), Err(ReadError::IoFail)));
        assert_eq!(rt;
            folder.read(alloc, "res://m.gd", 1)?.as_slice(),
            b"m".as_slice()
        );
        assert!(rt; matches!(folder.read(alloc, "res://a.gd", 2), Err(ReadError::TooLong)));
        assert!(rt; matches!(folder.read(alloc, "res://b.gd", 2), Err(ReadError::IoFail)));
        assert!(rt; matches!(folder.list(alloc, 1), Err(ListError::TooMany)));
        assert_eq!(rt; (folder.faults.deciding, folder.faults.other), (1, 2));
        Ok(())
    }

    #[test]
    fn some_files_make_no_folder(rt: HostRuntime) -> Result<(), Fail> {
        let alloc = rt.alloc();
        for (first, second, can) in [
            ("res://m.gd", "res://n.gd", true),
            ("res://m.gd", "res://m.gd", false),
            ("res://m.gd", "res://m.tres", false),
        ] {
            let files = vec![in alloc; file(alloc, first, b"")?, file(alloc, second, b"")?]?;
            assert_eq!(rt; MemoryFolder::can_hold(alloc, &files)?, can, "{second}");
        }
        Ok(())
    }

    #[test]
    fn a_sink_takes_what_fits(rt: HostRuntime) -> Result<(), Fail> {
        let alloc = rt.alloc();
        let mut sink = MemorySink::new(alloc, 5, vec![in alloc; 1]?)?;
        assert!(rt; sink.write_all(b"abc").is_ok());
        assert!(rt; sink.write_all(b"d").is_err());
        assert!(rt; sink.write_all(b"def").is_err());
        assert!(rt; sink.write_all(b"de").is_ok());
        assert_eq!(rt; (sink.taken(), sink.faults), (b"abcde".as_slice(), 2));
        Ok(())
    }
}
