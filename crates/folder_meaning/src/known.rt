// What a stage may see of a folder.
ghost use Rattle.std.specs.Prelude.{◌≡◌, [], ◌∷◌, ◌++◌, None, OnOk, OnErr};
ghost use Rattle.std.specs.Option.{option_copied};
ghost use Rattle.folder_meaning.specs.KnownFiles.{facts_of};

use crate::facts::FileFacts;
use crate::globals::Globals;
use indexmap::IndexMap;
use std::alloc::{AllocError, Global};
use std::marker::Model;
use std::sync::Arc;

/// The names that all files see, and the facts of some files, which are shared.
#[derive(Drop)]
pub struct Known<'a> {
    globals: &'a Globals,
    files: IndexMap<u32, Arc<FileFacts>>,
}

impl<'a> Model for Known<'a> {
    ghost use Rattle.folder_meaning.specs.KnownValue.{KnownValue};

    ghost Value = { KnownValue };

    ghost use Rattle.std.specs.Coded.{codes};
    ghost use Rattle.folder_meaning.specs.contracts.facts.FileFacts as facts;

    ghost coded = { Prim.hlevel (codes, facts.the_row.coded) };

    ghost use Rattle.folder_meaning.specs.KnownFiles.{files_of};

    ghost view = { λ k. record { globals = k.globals.now; files = files_of k.files.entries } };
}

impl<'a> Known<'a> {
    /// No files.
    pub fn new(alloc: Global, globals: &'a Globals) -> Known<'a>
        ensures globals { result.globals ≡ globals.now }
        ensures files { result.files ≡ [] }
    {
        Known {
            globals,
            files: IndexMap::new(alloc),
        }
    }

    /// The names that all files see.
    pub fn globals(&self) -> &Globals
        ensures { result.now ≡ self.now.globals }
    {
        self.globals
    }

    /// A file's facts, where it is there.
    pub fn facts(&self, file: u32) -> Option<&FileFacts>
        ensures { option_copied result ≡ facts_of self.now.files file }
    {
        match self.files.get(&file) {
            Some(facts) => Some(facts),
            None => None,
        }
    }

    /// Puts a file last.
    pub fn add(&mut self, file: u32, facts: Arc<FileFacts>) -> Result<(), AllocError>
        requires { facts_of self.old.files file ≡ None }
        ensures globals { self.new.globals ≡ self.old.globals }
        ensures ok { OnOk result (self.new.files ≡ self.old.files ++ (file, facts.value) ∷ []) }
        ensures err { OnErr result (self.new.files ≡ self.old.files) }
    {
        self.files.insert(file, facts)?;
        Ok(())
    }
}
