//! The form of a project's paths: `res://` and segments parted by `/`.
#![tactic(auto)]

ghost use Rattle.std.specs.Prelude.{◌≡◌, MatchOption, IsTrue, drop, false};
ghost use Rattle.std.specs.List.{list_all};
ghost use Rattle.res_paths.specs.Paths.{segments_of, is_segment, is_visible, has_front, has_segments, is_res_path, is_script_name, is_scene_name, is_source_path, is_project_path, project_file};

/// What each path begins with.
pub const FRONT: &str = "res://";

/// The path of a project's settings.
pub const PROJECT_FILE: &str = "res://project.godot";

/// One part is not empty, `.` or `..`.
pub fn is_segment(part: &str) -> bool
    ensures { result ≡ is_segment part.now }
{
    !(part == "" || part == "." || part == "..")
}

/// All parts between slashes are segments.
pub fn are_segments(text: &str) -> bool
    ensures { result ≡ list_all is_segment (segments_of text.now) }
{
    text.split('/').all(is_segment)
}

/// No part between slashes is hidden by a dot.
fn are_visible(text: &str) -> bool
    ensures { result ≡ list_all is_visible (segments_of text.now) }
{
    text.split('/').all(is_visible)
}

/// What stands behind the front of a text that begins as each path does.
pub fn behind_front(text: &str) -> Option<&str>
    ensures { MatchOption result (has_front text.now ≡ false) (λ rest. IsTrue (has_front text.now) × (rest.now ≡ drop 6 text.now)) }
{
    text.strip_prefix(FRONT)
}

/// The text is a path.
pub fn is_res_path(text: &str) -> bool
    ensures { result ≡ is_res_path text.now }
{
    behind_front(text).is_some_and(are_segments)
}

fn is_visible(part: &str) -> bool
    ensures { result ≡ is_visible part.now }
{
    !part.as_bytes().starts_with(b".")
}

/// The text ends as a script's path does.
pub fn is_script_name(text: &str) -> bool
    ensures { result ≡ is_script_name text.now }
{
    text.as_bytes().ends_with(b".gd")
}

/// The text ends as a scene's path does.
pub fn is_scene_name(text: &str) -> bool
    ensures { result ≡ is_scene_name text.now }
{
    text.as_bytes().ends_with(b".tscn")
}

/// The path of a script or a scene that no dot hides.
pub fn is_source_path(text: &str) -> bool
    ensures { result ≡ is_source_path text.now }
{
    let is_named = is_script_name(text) || is_scene_name(text);
    behind_front(text).is_some_and(|rest| are_segments(rest) && are_visible(rest) && is_named)
}

/// The path of a file that a project is made of: its settings, a script or a scene.
pub fn is_project_path(text: &str) -> bool
    ensures { result ≡ is_project_path text.now }
{
    text == PROJECT_FILE || is_source_path(text)
}

#[cfg(test)]
mod tests {
    use super::*;

    #[test]
    fn paths(rt: HostRuntime) {
        for good in [
            "res://m.gd",
            "res://a/b.c/d",
            "res://.a",
            "res://a/...",
            "res://ä b",
        ] {
            assert!(rt; is_res_path(good), "{good}");
        }
        for bad in [
            "",
            "m.gd",
            "res:/m.gd",
            "RES://m.gd",
            "res://",
            "res:///a",
            "res://a//b",
            "res://a/",
            "res://.",
            "res://a/..",
            "res://a/./b",
        ] {
            assert!(rt; !is_res_path(bad), "{bad}");
        }
    }

    #[test]
    fn project_paths(rt: HostRuntime) {
        for good in [
            "res://project.godot",
            "res://m.gd",
            "res://a/b.tscn",
            "res://a.gd/b.gd",
        ] {
            assert!(rt; is_project_path(good), "{good}");
        }
        for bad in [
            "res://a/project.godot",
            "res://m.gdx",
            "res://.gd",
            "res://.a/m.gd",
            "res://a/.m.tscn",
            "res://m.tres",
            "m.gd",
            "res://a//m.gd",
        ] {
            assert!(rt; !is_project_path(bad), "{bad}");
        }
    }
}
