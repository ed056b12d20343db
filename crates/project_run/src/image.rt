// The reading of a folder: its list, and then each file once, in ascending byte order of paths.
ghost use Rattle.std.specs.Prelude.{◌≡◌, ◌≤◌, ◌<◌, ◌+◌, ◌^◌, ◌↔◌, IfSome, OnSome, IfOk, IsErrOf, IsTrue, List, [], ◌∷◌, ℕ, map, length, vec_len, All, None, Some};
ghost use Rattle.std.specs.List.{sum_by};
ghost use Rattle.std.specs.declared.option.Option.{Option};
ghost use Rattle.project_run.specs.declared.image.ImageError.TheVariants.{NoMemory};
ghost use Rattle.host_io.specs.declared.folder.Faults.{Faults};
ghost use Rattle.host_io.specs.Causes.{Calls, after_told_call, is_failing};
ghost use Rattle.host_io.specs.Folder.{Files, HasReadCause, texts};
ghost use Rattle.folder_meaning.specs.Image.{Image, IsImage, paths_of, size_of};
ghost use Rattle.folder_meaning.specs.ImageFile.{bytes_of, image_of};
ghost use Rattle.folder_meaning.specs.Limits.{max_file_bytes, max_folder_bytes};
ghost use Rattle.folder_meaning.specs.Reading.{IsReadingOf, MayGive};
ghost use Rattle.folder_meaning.specs.ReadingCalls.{after_calls};
ghost use Rattle.folder_meaning.specs.ReadingFaults.{HasFaults};
ghost use Rattle.project_run.specs.Found.{Found, IsFoundBy, AllowsFound, HasFoundFaults, HasMadeCalls, MadeCalls, found_of, unfailed_found, is_alone};
ghost use Rattle.project_run.specs.Answers.{told_reading, told_found, script_error, AreListed, ListsPaths, HasFaultsOfList, DecidesReading, IsStep, IsReadAnswer, HasFaultsOfOne};

use folder_meaning::ImageFile;
use host_io::{Folder, ListError, ReadError};
use res_paths::PROJECT_FILE;
use std::alloc::{AllocError, AllocFailed, Global};

/// The most files of a folder.
const MAX_FILES: usize = 4_096;
/// The most bytes of a file.
const MAX_FILE_BYTES: usize = 1_048_576;
/// The most bytes of a folder.
const MAX_FOLDER_BYTES: usize = 67_108_864;

/// What decided before a folder's image was whole.
#[derive(Clone, Copy, Debug, PartialEq, Eq)]
pub enum ImageError {
    FolderFault,
    FolderLimit,
    NoMemory,
}

impl From<AllocError> for ImageError {
    ghost from_gives = { λ _ e. e ≡ NoMemory };

    fn from(_: AllocError) -> Self {
        ImageError::NoMemory
    }
}

impl<T: Drop> From<AllocFailed<T>> for ImageError {
    ghost from_gives = { λ _ e. e ≡ NoMemory };

    fn from(_: AllocFailed<T>) -> Self {
        ImageError::NoMemory
    }
}

/// What decided before the image of one script's folder was whole.
#[derive(Clone, Copy, Debug, PartialEq, Eq)]
pub enum ScriptImageError {
    FolderFault,
    FolderLimit,
    /// The folder's files are not the script alone.
    OtherFiles,
    NoMemory,
}

impl From<ImageError> for ScriptImageError {
    ghost from_gives = { λ error e. e ≡ script_error error };

    fn from(error: ImageError) -> Self {
        match error {
            ImageError::FolderFault => ScriptImageError::FolderFault,
            ImageError::FolderLimit => ScriptImageError::FolderLimit,
            ImageError::NoMemory => ScriptImageError::NoMemory,
        }
    }
}

/// Lists a folder's paths, in ascending byte order.
fn list_paths<F: Folder>(alloc: Global, folder: &mut F) -> Result<Vec<String>, ImageError>
    ensures listed { IfOk result (λ paths. AreListed (texts paths.items)) }
    ensures told { (files : Files) → F.files folder.old ≡ Some files → ListsPaths files result }
    ensures numbered { IfSome (F.calls folder.old) (λ calls. IsErrOf result ImageError.FolderFault ↔ IsTrue (is_failing calls)) }
    ensures files { F.files folder.new ≡ F.files folder.old }
    ensures number { F.calls folder.new ≡ after_told_call (F.calls folder.old) }
    ensures faults { HasFaultsOfList (F.faults folder.old) (F.faults folder.new) result }
{
    match folder.list(alloc, MAX_FILES) {
        Ok(mut paths) => {
            paths.sort_unstable();
            Ok(paths)
        }
        Err(ListError::IoFail) => Err(ImageError::FolderFault),
        Err(ListError::TooMany) => Err(ImageError::FolderLimit),
        Err(ListError::NoMemory) => Err(ImageError::NoMemory),
    }
}

/// Reads a file, and says what the read gave.
fn fetch<F: Folder>(alloc: Global, folder: &mut F, path: &str) -> Result<Vec<u8>, ReadError>
    ensures told { (files : Files) → F.files folder.old ≡ Some files → (outcome : Option (List ℕ)) × MayGive files (F.calls folder.old) path.now outcome × IsReadAnswer max_file_bytes outcome result }
    ensures files { F.files folder.new ≡ F.files folder.old }
    ensures number { F.calls folder.new ≡ after_told_call (F.calls folder.old) }
    ensures cause { HasReadCause path.now (F.faults folder.old) (F.faults folder.new) result }
    ensures within { IfOk result (λ bytes. vec_len bytes ≤ max_file_bytes) }
{
    folder.read(alloc, path, MAX_FILE_BYTES)
}

/// Reads one file, `total` bytes after the first.
fn read_one<F: Folder>(
    alloc: Global,
    folder: &mut F,
    path: &str,
    total: usize,
) -> Result<Option<Vec<u8>>, ImageError>
    requires { total ≤ max_folder_bytes }
    ensures told { (files : Files) → F.files folder.old ≡ Some files → (outcome : Option (List ℕ)) × MayGive files (F.calls folder.old) path.now outcome × IsStep total path.now outcome result }
    ensures files { F.files folder.new ≡ F.files folder.old }
    ensures number { F.calls folder.new ≡ after_told_call (F.calls folder.old) }
    ensures faults { HasFaultsOfOne (F.faults folder.old) (F.faults folder.new) result }
    ensures short { IfOk result (λ content. size_of (bytes_of content) ≤ max_file_bytes) }
    ensures within { IfOk result (λ content. total + size_of (bytes_of content) ≤ max_folder_bytes) }
{
    match fetch(alloc, folder, path) {
        Ok(bytes) if bytes.len() > MAX_FOLDER_BYTES - total => Err(ImageError::FolderLimit),
        Ok(bytes) => Ok(Some(bytes)),
        Err(ReadError::TooLong) => Err(ImageError::FolderLimit),
        Err(ReadError::NoMemory) => Err(ImageError::NoMemory),
        Err(ReadError::IoFail) if path == PROJECT_FILE => Err(ImageError::FolderFault),
        Err(ReadError::IoFail) => Ok(None),
    }
}

/// How many bytes a file has.
fn size(content: &Option<Vec<u8>>) -> usize
    ensures { result ≡ size_of (bytes_of content.now) }
{
    match content {
        None => 0,
        Some(bytes) => bytes.len(),
    }
}

/// Reads the files at these paths, one after the other.
fn read_files<F: Folder>(
    alloc: Global,
    folder: &mut F,
    paths: &[String],
) -> Result<Vec<ImageFile>, ImageError>
    ensures told { (files : Files) → F.files folder.old ≡ Some files → IfSome (told_reading result) (DecidesReading files (F.calls folder.old) (F.calls folder.new) (texts paths.now)) }
    ensures files { F.files folder.new ≡ F.files folder.old }
    ensures calls { MadeCalls (F.calls folder.old) (F.calls folder.new) }
    ensures number { IfOk result (λ image. F.calls folder.new ≡ after_calls (vec_len image) (F.calls folder.old)) }
    ensures faults { IfSome (told_reading result) (HasFaults (F.faults folder.old) (F.faults folder.new)) }
    ensures paths { IfOk result (λ image. paths_of (image_of image.items) ≡ texts paths.now) }
    ensures short { IfOk result (λ image. All (λ file. size_of file.1 ≤ max_file_bytes) (image_of image.items)) }
    ensures total { IfOk result (λ image. sum_by (λ file. size_of file.1) (image_of image.items) ≤ max_folder_bytes) }
{
    let mut image = Vec::new(alloc);
    let mut total = 0;
    for path in paths {
        let content = read_one(alloc, folder, path.as_str(), total)?;
        total += size(&content);
        let path = path.clone()?;
        image.push(ImageFile { path, content })?;
    }
    Ok(image)
}

/// Reads the image of a folder: `list`, and then each file once, in ascending byte order of paths.
pub fn read_image<F: Folder>(alloc: Global, folder: &mut F) -> Result<Vec<ImageFile>, ImageError>
    ensures reading { IfSome (told_reading result) (IsReadingOf (F.files folder.old) (F.calls folder.old)) }
    ensures faults { IfSome (told_reading result) (HasFaults (F.faults folder.old) (F.faults folder.new)) }
    ensures files { F.files folder.new ≡ F.files folder.old }
    ensures image { IfOk result (λ image. IsImage (image_of image.items)) }

    // The calls that were made: some number of them, and which number it is where the folder tells its files.
    ensures calls { MadeCalls (F.calls folder.old) (F.calls folder.new) }
    ensures made { OnSome (told_reading result) (HasMadeCalls None (F.files folder.old) (F.calls folder.old) (F.calls folder.new)) }
    ensures number { IfOk result (λ image. F.calls folder.new ≡ after_calls (vec_len image) (after_told_call (F.calls folder.old))) }
{
    let paths = list_paths(alloc, folder)?;
    read_files(alloc, folder, &paths)
}

/// These paths are this one alone.
fn is_alone(paths: &[String], path: &str) -> bool
    ensures { result ≡ is_alone path.now (texts paths.now) }
{
    match paths {
        [only] => only.as_str() == path,
        _ => false,
    }
}

/// Reads the image of a folder whose files are one script alone. Where they are not, no file is read.
pub fn read_script_image<F: Folder>(
    alloc: Global,
    folder: &mut F,
    path: &str,
) -> Result<Vec<ImageFile>, ScriptImageError>
    ensures found { IfSome (told_found result) (IsFoundBy (Some path.now) (F.files folder.old) (F.calls folder.old)) }
    ensures faults { IfSome (told_found result) (HasFoundFaults (F.faults folder.old) (F.faults folder.new)) }
    ensures files { F.files folder.new ≡ F.files folder.old }
    ensures image { IfOk result (λ image. IsImage (image_of image.items)) }
    ensures alone { IfOk result (λ image. paths_of (image_of image.items) ≡ path.now ∷ []) }

    // The calls that were made: some number of them, and which number it is where the folder tells its files.
    ensures calls { MadeCalls (F.calls folder.old) (F.calls folder.new) }
    ensures made { OnSome (told_found result) (HasMadeCalls (Some path.now) (F.files folder.old) (F.calls folder.old) (F.calls folder.new)) }
    ensures number { IfOk result (λ image. F.calls folder.new ≡ after_calls (vec_len image) (after_told_call (F.calls folder.old))) }
    ensures unread { IsErrOf result ScriptImageError.OtherFiles → F.calls folder.new ≡ after_told_call (F.calls folder.old) }
{
    let paths = list_paths(alloc, folder)?;
    if !is_alone(&paths, path) {
        return Err(ScriptImageError::OtherFiles);
    }
    Ok(read_files(alloc, folder, &paths)?)
}

/// The law of what is found: calls by number determine it, and the files alone allow that; something is always allowed.
/// Where no call was counted as failed, it is what the files are.
pub fn what_is_found_is_determined()
    ensures determined { (wanted : Option (List ℕ)) (files : Files) (calls : Calls) (found : Found) → IsFoundBy wanted (Some files) (Some calls) found ↔ (found ≡ found_of wanted files calls) }
    ensures allowed { (wanted : Option (List ℕ)) (files : Files) (calls : Calls) → AllowsFound wanted files (found_of wanted files calls) }
    ensures some { (wanted : Option (List ℕ)) (files : Option Files) (calls : Option Calls) → (found : Found) × IsFoundBy wanted files calls found }
    ensures unfailed { (wanted : Option (List ℕ)) (files : Files) (calls : Option Calls) (before now : Faults) (found : Found) → IsFoundBy wanted (Some files) calls found → HasFoundFaults before now found → now ≡ before → before.deciding + 1 < 2 ^ 64 → before.other + 1 < 2 ^ 64 → found ≡ unfailed_found wanted files }
{}

#[cfg(test)]
mod tests {
    use super::*;
    use host_io::MemoryFolder;
    use std::test::Fail;

    /// A folder of these files, each with its path for bytes, whose listed calls fail.
    fn folder_of(alloc: Global, paths: &[&str], failing: &[u64]) -> Result<MemoryFolder, Fail> {
        let mut files = Vec::new(alloc);
        for path in paths {
            let content = path.as_bytes().to_vec(alloc)?;
            files.push((String::from_str(alloc, path)?, content))?;
        }
        if !MemoryFolder::can_hold(alloc, &files)? {
            return Err(Fail::new("the paths are distinct"));
        }
        Ok(MemoryFolder::new(files, failing.to_vec(alloc)?))
    }

    #[test]
    fn an_image_is_in_order(rt: HostRuntime) -> Result<(), Fail> {
        let alloc = rt.alloc();
        let paths = ["res://b.gd", "res://project.godot", "res://a/c.gd"];
        let image = read_image(alloc, &mut folder_of(alloc, &paths, &[2])?)?;
        let wanted = [
            ("res://a/c.gd", true),
            ("res://b.gd", false),
            ("res://project.godot", true),
        ];
        assert_eq!(rt; image.len(), wanted.len());
        for (file, (path, is_read)) in image.iter().zip(wanted) {
            assert_eq!(rt; file.path.as_str(), path);
            match &file.content {
                None => assert!(rt; !is_read, "{path}"),
                Some(bytes) => assert_eq!(rt; bytes.as_slice(), path.as_bytes()),
            }
        }
        for (failing, want) in [
            (0, Some(ImageError::FolderFault)),
            (1, None),
            (3, Some(ImageError::FolderFault)),
            (4, None),
        ] {
            let answer = read_image(alloc, &mut folder_of(alloc, &paths, &[failing])?);
            assert_eq!(rt; answer.err(), want, "{failing}");
        }
        Ok(())
    }

    /// How many files the image has of 64 files that are as long as a file may be, and one more of this length; or why
    /// there is none.
    fn read_full(alloc: Global, last: usize) -> Result<Result<usize, ImageError>, Fail> {
        let mut files = Vec::new(alloc);
        for number in 0..64 {
            let content = vec![in alloc; b'x'; 1_048_576]?;
            files.push((format!(in alloc; "res://s{number}.gd")?, content))?;
        }
        let content = vec![in alloc; b'x'; last]?;
        files.push((String::from_str(alloc, "res://t.gd")?, content))?;
        if !MemoryFolder::can_hold(alloc, &files)? {
            return Err(Fail::new("the paths are distinct"));
        }
        let mut folder = MemoryFolder::new(files, Vec::new(alloc));
        Ok(read_image(alloc, &mut folder).map(|image| image.len()))
    }

    #[test]
    fn a_folder_has_so_many_bytes(rt: HostRuntime) -> Result<(), Fail> {
        assert_eq!(rt; read_full(rt.alloc(), 0)?, Ok(65));
        assert_eq!(rt; read_full(rt.alloc(), 1)?, Err(ImageError::FolderLimit));
        Ok(())
    }

    const SCRIPT: &str = "res://m.gd";

    /// What the reading of the script answers in a folder of these files, whose second call would fail.
    fn refusal(alloc: Global, paths: &[&str]) -> Result<Option<ScriptImageError>, Fail> {
        let mut folder = folder_of(alloc, paths, &[1])?;
        Ok(read_script_image(alloc, &mut folder, SCRIPT).err())
    }

    #[test]
    fn a_script_is_alone(rt: HostRuntime) -> Result<(), Fail> {
        let alloc = rt.alloc();
        let mut folder = folder_of(alloc, &["res://m.gd"], &[2])?;
        assert_eq!(rt; read_script_image(alloc, &mut folder, SCRIPT)?.len(), 1);
        let again = read_script_image(alloc, &mut folder, SCRIPT);
        assert_eq!(rt; again.err(), Some(ScriptImageError::FolderFault));
        let other = Some(ScriptImageError::OtherFiles);
        assert_eq!(rt; refusal(alloc, &["res://m.gd", "res://n.gd"])?, other);
        assert_eq!(rt; refusal(alloc, &["res://n.gd"])?, other);
        assert_eq!(rt; refusal(alloc, &[])?, other);
        Ok(())
    }
}
