// The real folder and the standard output. What they hold or take is not told.
ghost use Rattle.std.specs.Prelude.{◌≡◌, ◌≤◌, ◌+◌, List, [], ◌∷◌, length, vec_len, IfOk, IfSome, OnOk, IsTrue, IsErrOf, IsErrAnd, None, All, string_bytes};
ghost use Rattle.host_io.specs.Causes.{HasCause, risen};
ghost use Rattle.host_io.specs.Folder.{texts, IsListing, AreProjectPaths, no_faults};
ghost use Rattle.host_io.specs.Paths.{same_path};
ghost use Rattle.std.specs.List.{IsDistinct};
ghost use Rattle.res_paths.specs.Paths.{is_project_path};

use crate::folder::Faults;
use crate::{Folder, ListError, ReadError, Sink, WriteError};
use res_paths::is_project_path;
use std::alloc::{AllocError, Global};
use std::fs::DirEntry;
use std::io::{ErrorKind, Read, Write};
use std::rt::Files;
use std::{fs, io};

/// Standard output, which tells nothing of what it took.
#[derive(Drop)]
pub struct HostSink<R: Print> {
    rt: R,
    faults: u64,
}

impl<R: Print> HostSink<R> {
    /// Standard output, with no buffer of its own.
    pub fn stdout(rt: R) -> HostSink<R>
        ensures { ⟦<HostSink<R> as Sink>⟧.state result ≡ record { taken = None; writes = None; faults = 0 } }
    {
        HostSink { rt, faults: 0 }
    }
}

impl<R: Print> Sink for HostSink<R> {
    ghost state = { λ s. record { taken = None; writes = None; faults = s.faults } };

    fn write_all(&mut self, bytes: &[u8]) -> Result<(), WriteError> {
        match io::writer(&self.rt).write_all(bytes) {
            Ok(()) => Ok(()),
            Err(_) => {
                self.faults = self.faults.saturating_add(1);
                Err(WriteError::IoFail)
            }
        }
    }
}

const MAX_ENTRIES: usize = 1_048_576;

/// A real folder, which tells nothing of what it holds.
#[derive(Drop)]
pub struct HostFolder<R: Files + AllocGlobal + Clone + Drop> {
    rt: R,
    root: String,
    faults: Faults,
}

impl<R: Files + AllocGlobal + Clone + Drop> HostFolder<R> {
    /// The folder at this place, which is first looked at by `list` or `read`.
    pub fn open(rt: R, root: String) -> HostFolder<R>
        ensures { ⟦<HostFolder<R> as Folder>⟧.faults result ≡ no_faults }
    {
        HostFolder {
            rt,
            root,
            faults: Faults::NONE,
        }
    }
}

/// The folders still to look into, by their paths below the root, how many entries were seen, and the paths found.
#[derive(Drop)]
struct Walk {
    folders: Vec<String>,
    entries: usize,
    paths: Vec<String>,
    ghost form: { AreProjectPaths (texts paths.items) },
}

impl Walk {
    /// The root alone is to be looked into.
    fn start(alloc: Global) -> Result<Walk, AllocError> {
        let mut folders = Vec::new(alloc);
        folders.push(String::new(alloc))?;
        Ok(Walk {
            folders,
            entries: 0,
            paths: Vec::new(alloc),
        })
    }

    fn next_folder(&mut self) -> Option<String> {
        self.folders.pop()
    }

    /// Looks at one entry of a folder.
    fn visit<R: Files + AllocGlobal + Clone + Drop>(
        &mut self,
        rt: &R,
        alloc: Global,
        folder: &str,
        entry: &DirEntry<R>,
    ) -> Result<(), ListError> {
        if self.entries >= MAX_ENTRIES {
            return Err(ListError::IoFail);
        }
        self.entries += 1;
        let name = entry.file_name();
        if name.starts_with('.') {
            return Ok(());
        }
        let kind = entry.file_type().map_err(list_error)?;
        if kind.is_dir() {
            self.folders.push(format!(in alloc; "{folder}{name}/")?)?;
            return Ok(());
        }
        let path = format!(in alloc; "res://{folder}{name}")?;
        if kind.is_file() || kind.is_symlink() && !leads_elsewhere(rt, entry)? {
            self.add(path)?;
        }
        Ok(())
    }

    /// Looks at the entries of one folder.
    fn visit_folder<R: Files + AllocGlobal + Clone + Drop>(
        &mut self,
        rt: &R,
        alloc: Global,
        root: &str,
        folder: &str,
    ) -> Result<(), ListError> {
        let place = place_below(alloc, root, folder)?;
        for entry in fs::read_dir(rt, place.as_str()).map_err(list_error)? {
            self.visit(rt, alloc, folder, &entry.map_err(list_error)?)?;
        }
        Ok(())
    }

    /// Adds the path of a project's file, and passes over any other.
    fn add(&mut self, path: String) -> Result<(), ListError> {
        if is_project_path(path.as_str()) {
            self.paths.push(path)?;
        }
        Ok(())
    }
}

/// A link leads to what is no regular file. One that leads nowhere is listed, and its read then fails.
fn leads_elsewhere<R: Files + AllocGlobal + Clone + Drop>(
    rt: &R,
    entry: &DirEntry<R>,
) -> Result<bool, ListError> {
    match fs::metadata(rt, entry.path()).map_err(list_error) {
        Ok(target) => Ok(!target.is_file()),
        Err(ListError::NoMemory) => Err(ListError::NoMemory),
        Err(_) => Ok(false),
    }
}

fn list_error(error: io::Error) -> ListError {
    if error.kind() == ErrorKind::OutOfMemory {
        ListError::NoMemory
    } else {
        ListError::IoFail
    }
}

fn read_error(error: io::Error) -> ReadError {
    if error.kind() == ErrorKind::OutOfMemory {
        ReadError::NoMemory
    } else {
        ReadError::IoFail
    }
}

/// Where the system has what is below a root. An empty root is no folder, and must not become the system's own.
fn place_below(alloc: Global, root: &str, below: &str) -> Result<String, AllocError> {
    if root.is_empty() {
        return Ok(String::new(alloc));
    }
    format!(in alloc; "{root}/{below}")
}

/// The paths below the root, in any order, and maybe one twice, where the folder changes meanwhile.
fn walk_all<R: Files + AllocGlobal + Clone + Drop>(
    rt: &R,
    alloc: Global,
    root: &str,
) -> Result<Vec<String>, ListError>
    ensures { IfOk result (λ paths. AreProjectPaths (texts paths.items)) }
{
    let mut walk = Walk::start(alloc)?;
    for _ in 0..=MAX_ENTRIES {
        let Some(folder) = walk.next_folder() else {
            break;
        };
        walk.visit_folder(rt, alloc, root, folder.as_str())?;
    }
    if !walk.folders.is_empty() {
        return Err(ListError::IoFail);
    }
    Ok(walk.paths)
}

/// Each of these paths once.
fn each_once(mut paths: Vec<String>) -> Vec<String>
    requires { AreProjectPaths (texts paths.items) }
    ensures form { AreProjectPaths (texts result.items) }
    ensures once { IsDistinct same_path (texts result.items) }
{
    paths.sort_unstable();
    paths.dedup();
    paths
}

/// The listing of the folder at a root.
fn list_root<R: Files + AllocGlobal + Clone + Drop>(
    rt: &R,
    alloc: Global,
    root: &str,
    limit: usize,
) -> Result<Vec<String>, ListError>
    ensures { IfOk result (λ paths. IsListing limit (texts paths.items)) }
{
    let paths = each_once(walk_all(rt, alloc, root)?);
    if paths.len() > limit {
        return Err(ListError::TooMany);
    }
    Ok(paths)
}

/// The bytes of a regular file, read no further than one past the limit. No other is opened, since a pipe may wait for ever.
fn read_file<R: Files + AllocGlobal>(
    rt: &R,
    alloc: Global,
    place: &str,
    limit: usize,
) -> Result<Vec<u8>, ReadError>
    ensures { IfOk result (λ bytes. vec_len bytes ≤ limit) }
{
    if !fs::metadata(rt, place).map_err(read_error)?.is_file() {
        return Err(ReadError::IoFail);
    }
    let mut bytes = Vec::new(alloc);
    let file = fs::open(rt, place).map_err(read_error)?;
    let most = (limit as u64).saturating_add(1);
    file.take(most).read_to_end(&mut bytes).map_err(read_error)?;
    if bytes.len() > limit {
        return Err(ReadError::TooLong);
    }
    Ok(bytes)
}

/// The bytes of the file at a path below a root. A path that `list` never gives leads to none.
fn read_below<R: Files + AllocGlobal>(
    rt: &R,
    alloc: Global,
    root: &str,
    path: &str,
    limit: usize,
) -> Result<Vec<u8>, ReadError>
    ensures { IfOk result (λ bytes. vec_len bytes ≤ limit) }
{
    match path.strip_prefix(res_paths::FRONT) {
        Some(below) if is_project_path(path) => {
            let place = place_below(alloc, root, below)?;
            read_file(rt, alloc, place.as_str(), limit)
        }
        _ => Err(ReadError::IoFail),
    }
}

impl<R: Files + AllocGlobal + Clone + Drop> Folder for HostFolder<R> {
    ghost files = { λ _. None };

    ghost faults = { λ f. f.faults };

    ghost calls = { λ _. None };

    fn list(&mut self, alloc: Global, limit: usize) -> Result<Vec<String>, ListError> {
        match list_root(&self.rt, alloc, self.root.as_str(), limit) {
            Err(ListError::IoFail) => self.faults.list_failed(),
            other => other,
        }
    }

    fn read(&mut self, alloc: Global, path: &str, limit: usize) -> Result<Vec<u8>, ReadError> {
        match read_below(&self.rt, alloc, self.root.as_str(), path, limit) {
            Err(ReadError::IoFail) => self.faults.read_failed(path),
            other => other,
        }
    }
}

#[cfg(test)]
mod tests {
    use super::*;
    use std::os::unix::fs::symlink;
    use std::test::Fail;

    const ROOT: &str = "host_io_test_folder";

    fn write_files(rt: &HostRuntime) -> Result<(), Fail> {
        let _ = fs::remove_dir_all(rt, ROOT);
        for folder in ["", "/a", "/a/b", "/.git"] {
            fs::create_dir(rt, format!(in rt.alloc(); "{ROOT}{folder}")?.as_str())?;
        }
        for file in [
            "project.godot",
            "m.gd",
            "a/b/s.tscn",
            "a/project.godot",
            "a/.m.gd",
            ".git/m.gd",
            "m.tres",
            "gd",
        ] {
            let place = format!(in rt.alloc(); "{ROOT}/{file}")?;
            fs::write(rt, place.as_str(), file)?;
        }
        symlink(
            rt,
            "a",
            format!(in rt.alloc(); "{ROOT}/folder.gd")?.as_str(),
        )?;
        symlink(
            rt,
            "/dev/zero",
            format!(in rt.alloc(); "{ROOT}/device.gd")?.as_str(),
        )?;
        symlink(
            rt,
            "m.gd",
            format!(in rt.alloc(); "{ROOT}/file.gd")?.as_str(),
        )?;
        symlink(
            rt,
            "none",
            format!(in rt.alloc(); "{ROOT}/broken.gd")?.as_str(),
        )?;
        symlink(
            rt,
            "loop.gd",
            format!(in rt.alloc(); "{ROOT}/loop.gd")?.as_str(),
        )?;
        Ok(())
    }

    #[test]
    fn lists_and_reads_a_real_folder(rt: HostRuntime) -> Result<(), Fail> {
        write_files(&rt)?;
        let alloc = rt.alloc();
        let root = String::from_str(rt.alloc(), ROOT)?;
        let mut folder = HostFolder::open(rt.clone()?, root);
        let mut paths = folder.list(rt.alloc(), 6)?;
        paths.sort_unstable();
        let wanted = [
            "res://a/b/s.tscn",
            "res://broken.gd",
            "res://file.gd",
            "res://loop.gd",
            "res://m.gd",
            "res://project.godot",
        ];
        assert_eq!(rt; paths.len(), wanted.len());
        for (path, want) in paths.iter().zip(wanted) {
            assert_eq!(rt; path.as_str(), want);
        }
        assert!(rt; matches!(folder.list(rt.alloc(), 5), Err(ListError::TooMany)));
        let bytes = folder.read(rt.alloc(), "res://file.gd", 4)?;
        assert_eq!(rt; bytes.as_slice(), b"m.gd".as_slice());
        let long = folder.read(rt.alloc(), "res://m.gd", 3);
        assert!(rt; matches!(long, Err(ReadError::TooLong)));
        assert_eq!(rt; folder.faults, Faults::NONE);
        for lacking in [
            "res://broken.gd",
            "res://loop.gd",
            "res://device.gd",
            "res://none.gd",
            "res://../m.gd",
            "m.gd",
        ] {
            let answer = folder.read(rt.alloc(), lacking, 9);
            assert!(rt; matches!(answer, Err(ReadError::IoFail)), "{lacking}");
        }
        assert_eq!(rt; (folder.faults.deciding, folder.faults.other), (0, 6));
        fs::remove_dir_all(&rt, ROOT)?;
        assert!(rt; matches!(folder.list(alloc, 6), Err(ListError::IoFail)));
        assert_eq!(rt; (folder.faults.deciding, folder.faults.other), (1, 6));
        Ok(())
    }

    #[test]
    fn an_empty_root_is_no_folder(rt: HostRuntime) {
        let mut folder = HostFolder::open(&rt, String::new(rt.alloc()));
        assert!(rt; matches!(folder.list(rt.alloc(), 9), Err(ListError::IoFail)));
        let settings = folder.read(rt.alloc(), res_paths::PROJECT_FILE, 9);
        assert!(rt; matches!(settings, Err(ReadError::IoFail)));
        assert_eq!(rt; (folder.faults.deciding, folder.faults.other), (2, 0));
    }

    #[test]
    fn standard_output_takes_bytes(rt: HostRuntime) {
        let mut sink = HostSink::stdout(&rt);
        assert_eq!(rt; sink.write_all(b"written\n"), Ok(()));
        assert_eq!(rt; sink.faults, 0);
    }
}
