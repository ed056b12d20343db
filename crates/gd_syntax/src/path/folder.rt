// Folders of a project, from which texts name paths.
ghost use Rattle.std.specs.Prelude.{◌≡◌, IsTrue, IfOk};
ghost use Rattle.std.specs.declared.option.Option.TheVariants.{Some};
ghost use Rattle.res_paths.specs.Paths.{segments_of};
ghost use Rattle.gd_syntax.specs.Parts.{parts_of, is_unslashed};

use crate::path::{PathError, ResPath};
use res_paths::{FRONT, behind_front};
use std::alloc::{AllocError, Global};
use std::marker::Model;

// The parts of a text between slashes.
fn parts<'a>(alloc: Global, text: &'a str) -> Result<Vec<&'a str>, AllocError>
    ensures { IfOk result (λ parts. parts_of parts.items ≡ segments_of text.now) }
{
    text.split('/').collect(alloc)
}

/// A folder of a project, which contracts see as its segments from the root.
#[derive(Drop)]
pub struct Folder<'a> {
    segments: Vec<&'a str>,
}

impl<'a> Model for Folder<'a> {
    ghost use Rattle.std.specs.Prelude.{List, ℕ, IsTrue};
    ghost use Rattle.std.specs.List.{list_all};
    ghost use Rattle.gd_syntax.specs.Parts.{parts_of, is_name};

    ghost Value = { List (List ℕ) };

    ghost view = { λ f. parts_of f.segments.items };

    ghost invariant = { λ f. IsTrue (list_all is_name (parts_of f.segments.items)) };
}

impl<'a> Folder<'a> {
    ghost use Rattle.gd_syntax.specs.ResPath.{folder_of, entered, resolved, path_of, IsPathOr};
    ghost use Rattle.gd_syntax.specs.Parts.{IsEntered};

    /// The folder that a file stands in.
    #[tactic(auto, using(crate::proofs::Segments::without_last))]
    pub fn of_file(alloc: Global, file: &'a ResPath) -> Result<Self, AllocError>
        ensures { IfOk result (λ folder. folder ≡ folder_of file.now) }
    {
        let rest = behind_front(file.text.as_str()).unwrap();
        let mut segments = parts(alloc, rest)?;
        segments.pop();
        Ok(Folder { segments })
    }

    /// One step by a part of a text.
    fn enter(&mut self, part: &'a str) -> Result<(), PathError>
        requires { IsTrue (is_unslashed part.now) }
        ensures { IsEntered (entered self.old part.now) self.new result }
    {
        if part == "" {
            return Err(PathError::BadSegment);
        }
        if part == "." {
            return Ok(());
        }
        if part == ".." {
            self.segments.pop().ok_or(PathError::BadSegment)?;
            return Ok(());
        }
        self.segments.push(part)?;
        Ok(())
    }

    /// The steps by all parts of a text.
    pub fn follow(&mut self, text: &'a str) -> Result<(), PathError>
        ensures { IsEntered (resolved (Some self.old) (segments_of text.now)) self.new result }
    {
        for part in text.split('/') {
            self.enter(part)?;
        }
        Ok(())
    }

    /// The path whose segments are this folder's.
    pub fn to_path(&self, alloc: Global) -> Result<ResPath, PathError>
        ensures { IsPathOr (path_of (Some self.now)) result }
    {
        let (first, others) = self.segments.split_first().ok_or(PathError::BadSegment)?;
        let mut text = String::from_str(alloc, FRONT)?;
        text.push_str(first)?;
        for segment in others {
            text.push('/')?;
            text.push_str(segment)?;
        }
        Ok(ResPath { text })
    }
}
