// The files of a folder, in ascending order of paths.
ghost use Rattle.std.specs.Prelude.{◌≡◌, ◌<◌, IfOk, IsOk, Some, length, map};
ghost use Rattle.std.specs.List.Sorted.{IsSortedByKey, IsStrictlySortedBy};
ghost use Rattle.std.specs.Option.{option_copied};
ghost use Rattle.host_io.specs.Paths.{path_order};
ghost use Rattle.folder_meaning.specs.Image.{paths_of};
ghost use Rattle.folder_images.specs.Files.{files_of, file_number, path_at, content_at, AreImageFiles, IsImageOf};

use gd_syntax::ResPath;
use std::alloc::AllocError;
use std::marker::Model;

/// The files of a folder, numbered in ascending byte order of paths. A file without content is unreadable.
#[derive(Drop)]
pub struct Image {
    files: Vec<(ResPath, Option<Vec<u8>>)>,
}

impl Model for Image {
    ghost use Rattle.std.specs.Prelude.{map};
    ghost use Rattle.std.specs.List.Sorted.{IsSortedByKey};
    ghost use Rattle.std.specs.Coded.{coded_ℕ, coded_list, coded_option, coded×};
    ghost use Rattle.host_io.specs.Paths.{path_order};
    ghost use Rattle.folder_meaning.specs.Image as image;
    ghost use Rattle.folder_images.specs.Files.{files_of, AreImageFiles, IsHeld};

    ghost Value = { image.Image };

    ghost view = { λ i. files_of i.files.items };

    ghost invariant = { λ i. IsHeld i.files.items };
}

impl Image {
    /// The image of these files, whose paths are distinct and have the form that a folder lists. It takes no memory yet, so
    /// it is always made.
    pub fn new(mut files: Vec<(ResPath, Option<Vec<u8>>)>) -> Result<Image, AllocError>
        requires { AreImageFiles (files_of files.items) }
        ensures files { IfOk result (IsImageOf (files_of files.items)) }
        ensures made { IsOk result }
    {
        files.sort_unstable_by(|a, b| a.0.as_str().cmp(b.0.as_str()));
        Ok(Image { files })
    }

    /// The number of a path's file; None where it is not there.
    pub fn find(&self, path: &ResPath) -> Option<u32>
        ensures { result ≡ file_number self.now path.now }
    {
        let text = path.as_str();
        match self
            .files
            .binary_search_by(|file| file.0.as_str().cmp(text))
        {
            Ok(place) => Some(place as u32),
            Err(_) => None,
        }
    }

    pub fn path(&self, file: u32) -> &ResPath
        requires { file < length self.now }
        ensures { Some result.now ≡ path_at self.now file }
    {
        &self.files[file as usize].0
    }

    /// The bytes of a file; None where it is unreadable.
    pub fn bytes(&self, file: u32) -> Option<&[u8]>
        requires { file < length self.now }
        ensures { Some (option_copied result) ≡ content_at self.now file }
    {
        match &self.files[file as usize].1 {
            None => None,
            Some(bytes) => Some(bytes),
        }
    }

    pub fn len(&self) -> u32
        ensures { result ≡ length self.now }
    {
        self.files.len() as u32
    }

    /// What is true of every image: its paths ascend, and its files are such as a folder has.
    pub fn is_sound(&self)
        ensures ascending { IsStrictlySortedBy path_order (paths_of self.now) }
        ensures files { AreImageFiles self.now }
    {
        let _files = &self.files;
    }
}
