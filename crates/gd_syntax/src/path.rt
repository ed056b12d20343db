// Paths of a project: `res://` and segments parted by `/`.
ghost use Rattle.std.specs.Prelude.{◌≡◌};
ghost use Rattle.gd_syntax.specs.declared.path.PathError.TheVariants.{NoMemory};
ghost use Rattle.gd_syntax.specs.ResPath.{IsPathOf, IsJoined};

mod folder;

use crate::path::folder::Folder;
use res_paths::{are_segments, behind_front};
use std::alloc::{AllocError, AllocFailed, Global};
use std::marker::Model;

/// Why a text is no path.
#[derive(Clone, Copy, Debug, PartialEq, Eq)]
pub enum PathError {
    /// It does not begin with `res://`.
    NotRes,
    /// A segment is empty, `.` or `..`, or the path leaves the project's root or is the root itself.
    BadSegment,
    NoMemory,
}

impl From<AllocError> for PathError {
    ghost from_gives = { λ _ e. e ≡ NoMemory };

    fn from(_: AllocError) -> Self {
        PathError::NoMemory
    }
}

impl<T: Drop> From<AllocFailed<T>> for PathError {
    ghost from_gives = { λ _ e. e ≡ NoMemory };

    fn from(_: AllocFailed<T>) -> Self {
        PathError::NoMemory
    }
}

/// A path of a project, which contracts see as its text.
#[derive(Drop)]
pub struct ResPath {
    text: String,
}

impl Model for ResPath {
    ghost use Rattle.std.specs.Prelude.{List, ℕ, IsTrue, string_bytes};
    ghost use Rattle.res_paths.specs.Paths.{is_res_path};

    ghost Value = { List ℕ };

    ghost view = { λ p. string_bytes p.text };

    ghost invariant = { λ p. IsTrue (is_res_path (string_bytes p.text)) };
}

impl ResPath {
    /// The path that a text is.
    pub fn new(alloc: Global, text: &str) -> Result<ResPath, PathError>
        ensures { IsPathOf text.now result }
    {
        let rest = behind_front(text).ok_or(PathError::NotRes)?;
        if !are_segments(rest) {
            return Err(PathError::BadSegment);
        }
        let text = String::from_str(alloc, text)?;
        Ok(ResPath { text })
    }

    /// The path that a text names: one with `res://` by itself, another from this file's folder, with `.` and `..`
    /// resolved.
    pub fn join(&self, alloc: Global, text: &str) -> Result<ResPath, PathError>
        ensures { IsJoined self.now text.now result }
    {
        if behind_front(text).is_some() {
            return ResPath::new(alloc, text);
        }
        let mut folder = Folder::of_file(alloc, self)?;
        folder.follow(text)?;
        folder.to_path(alloc)
    }

    pub fn as_str(&self) -> &str
        ensures { result.now ≡ self.now }
    {
        self.text.as_str()
    }
}

#[cfg(test)]
mod tests {
    use super::*;
    use PathError::{BadSegment, NotRes};
    use std::process::Abort;

    fn check_join(
        rt: &(impl Abort + AllocGlobal),
        file: &ResPath,
        text: &str,
        wanted: Result<&str, PathError>,
    ) {
        let joined = file.join(rt.alloc(), text);
        let answer = joined
            .as_ref()
            .map(|path| path.as_str())
            .map_err(|error| *error);
        assert_eq!(rt; answer, wanted, "{text}");
    }

    #[test]
    fn paths_from_a_folder(rt: HostRuntime) -> Result<(), PathError> {
        let file = ResPath::new(rt.alloc(), "res://a/b/m.gd")?;
        for (text, wanted) in [
            ("n.gd", "res://a/b/n.gd"),
            ("./n.gd", "res://a/b/n.gd"),
            ("../n.gd", "res://a/n.gd"),
            ("../../n.gd", "res://n.gd"),
            ("c/../n.gd", "res://a/b/n.gd"),
            (".", "res://a/b"),
            ("ä/ö b.gd", "res://a/b/ä/ö b.gd"),
            ("..a/...", "res://a/b/..a/..."),
            ("res:/x", "res://a/b/res:/x"),
            ("res://x.gd", "res://x.gd"),
        ] {
            check_join(&rt, &file, text, Ok(wanted));
        }
        for text in [
            "",
            "/n.gd",
            "c//n.gd",
            "c/",
            "../..",
            "../../../n.gd",
            "../../../a/b/n.gd",
            "res://",
            "res://./n.gd",
        ] {
            check_join(&rt, &file, text, Err(BadSegment));
        }
        Ok(())
    }

    #[test]
    fn paths_from_the_root(rt: HostRuntime) -> Result<(), PathError> {
        let file = ResPath::new(rt.alloc(), "res://m.gd")?;
        check_join(&rt, &file, "n.gd", Ok("res://n.gd"));
        check_join(&rt, &file, ".", Err(BadSegment));
        check_join(&rt, &file, "..", Err(BadSegment));
        Ok(())
    }

    #[test]
    fn whole_paths(rt: HostRuntime) -> Result<(), PathError> {
        assert_eq!(rt;
            ResPath::new(rt.alloc(), "res://a/ä.gd")?.as_str(),
            "res://a/ä.gd"
        );
        for (text, fault) in [
            ("m.gd", NotRes),
            ("res://", BadSegment),
            ("res://a/../m.gd", BadSegment),
        ] {
            assert_eq!(rt; ResPath::new(rt.alloc(), text).err(), Some(fault), "{text}");
        }
        Ok(())
    }
}
