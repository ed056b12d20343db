// A folder of project files.
ghost use Rattle.std.specs.Prelude.{◌≡◌, ◌↔◌, ◌≤◌, IfOk, IfSome, IsTrue, IsErrOf, vec_len};
ghost use Rattle.std.specs.declared.option.Option.{Option};
ghost use Rattle.host_io.specs.declared.folder.Faults.{Faults};
ghost use Rattle.host_io.specs.declared.folder.ListError.TheVariants.{NoMemory as list_memory};
ghost use Rattle.host_io.specs.declared.folder.ReadError.TheVariants.{NoMemory as read_memory};
ghost use Rattle.host_io.specs.Causes.{Calls, is_failing, after_told_call};
ghost use Rattle.host_io.specs.Folder.{Files, texts, HasProjectPaths, IsListing, ListsFiles, ReadsFile, is_failing_read, HasListCause, HasReadCause};

use res_paths::PROJECT_FILE;
use std::alloc::{AllocError, AllocFailed, Global};
use thiserror::Error;

/// Why a folder was not listed.
#[derive(Clone, Copy, Debug, PartialEq, Eq, Error)]
pub enum ListError {
    #[error("the folder cannot be listed")]
    IoFail,
    #[error("the folder has too many files")]
    TooMany,
    #[error("out of memory")]
    NoMemory,
}

/// Why a file was not read.
#[derive(Clone, Copy, Debug, PartialEq, Eq, Error)]
pub enum ReadError {
    #[error("the file cannot be read")]
    IoFail,
    #[error("the file is too long")]
    TooLong,
    #[error("out of memory")]
    NoMemory,
}

impl From<AllocError> for ListError {
    ghost from_gives = { λ _ e. e ≡ list_memory };

    fn from(_: AllocError) -> Self {
        ListError::NoMemory
    }
}

impl<T: Drop> From<AllocFailed<T>> for ListError {
    ghost from_gives = { λ _ e. e ≡ list_memory };

    fn from(_: AllocFailed<T>) -> Self {
        ListError::NoMemory
    }
}

impl From<AllocError> for ReadError {
    ghost from_gives = { λ _ e. e ≡ read_memory };

    fn from(_: AllocError) -> Self {
        ReadError::NoMemory
    }
}

impl<T: Drop> From<AllocFailed<T>> for ReadError {
    ghost from_gives = { λ _ e. e ≡ read_memory };

    fn from(_: AllocFailed<T>) -> Self {
        ReadError::NoMemory
    }
}

/// How often calls of a folder have failed: `list` and reads of the project file, and all other reads.
#[derive(Clone, Copy, Debug, PartialEq, Eq)]
pub struct Faults {
    pub deciding: u64,
    pub other: u64,
}

impl Faults {
    pub const NONE: Faults = Faults {
        deciding: 0,
        other: 0,
    };

    /// Counts a failed `list`.
    pub(crate) fn list_failed(&mut self) -> Result<Vec<String>, ListError>
        ensures cause { HasListCause self.old self.new result }
        ensures fails { IsErrOf result ListError.IoFail }
    {
        self.deciding = self.deciding.saturating_add(1);
        Err(ListError::IoFail)
    }

    /// Counts a failed read.
    pub(crate) fn read_failed(&mut self, path: &str) -> Result<Vec<u8>, ReadError>
        ensures cause { HasReadCause path.now self.old self.new result }
        ensures fails { IsErrOf result ReadError.IoFail }
    {
        if path == PROJECT_FILE {
            self.deciding = self.deciding.saturating_add(1);
        } else {
            self.other = self.other.saturating_add(1);
        }
        Err(ReadError::IoFail)
    }
}

/// A folder of a project's files. No call changes them.
pub trait Folder {
    /// The files, where the folder tells them.
    ghost files: { Self → Option Files };

    /// How often its calls have failed. The counts never fall.
    ghost faults: { Self → Faults };

    /// The calls by number, where the folder tells them.
    ghost calls: { Self → Option Calls };

    /// Each path once, in any order, and at most `limit`: the project file, and each script and scene that no dot hides.
    fn list(&mut self, alloc: Global, limit: usize) -> Result<Vec<String>, ListError>
        ensures listing { IfOk result (λ paths. IsListing limit (texts paths.items)) }
        ensures told { IfSome (files self.old) (λ files. ListsFiles files limit result) }
        ensures form { IfSome (files self.old) HasProjectPaths }
        ensures cause { HasListCause (faults self.old) (faults self.new) result }
        ensures files { files self.new ≡ files self.old }
        ensures number { calls self.new ≡ after_told_call (calls self.old) }
        ensures numbered { IfSome (calls self.old) (λ calls. IsErrOf result ListError.IoFail ↔ IsTrue (is_failing calls)) };

    /// The bytes of a file, at most `limit`.
    fn read(&mut self, alloc: Global, path: &str, limit: usize) -> Result<Vec<u8>, ReadError>
        ensures within { IfOk result (λ bytes. vec_len bytes ≤ limit) }
        ensures told { IfSome (files self.old) (λ files. ReadsFile files path.now limit result) }
        ensures cause { HasReadCause path.now (faults self.old) (faults self.new) result }
        ensures files { files self.new ≡ files self.old }
        ensures number { calls self.new ≡ after_told_call (calls self.old) }
        ensures numbered { IfSome (calls self.old) (λ calls. IsErrOf result ReadError.IoFail ↔ IsTrue (is_failing_read (files self.old) path.now calls)) };
}
