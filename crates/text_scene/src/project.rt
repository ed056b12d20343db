// The settings of a project.
ghost use Rattle.std.specs.Prelude.{◌≡◌, ◌≤◌, ◌^◌, [], length, IfOk, is_some};
ghost use Rattle.scene_syntax.specs.Lines.{lines};
ghost use Rattle.scene_syntax.specs.Project.{IsProjectAnswer, project_of, text_in};
ghost use Rattle.text_scene.specs.Drafts.{start, whole, answer_of};

use crate::characters::{bad_byte, characters, number_behind, without_mark};
use crate::draft::Draft;
use crate::escapes::string_value;
use crate::lines::next_line;
use gd_syntax::{FaultKind, LoadFault, Place, SolveError, Text};
use gd_tokens::valid_front;
use scene_syntax::ProjectFile;
use std::alloc::{AllocError, Global};

/// What the lines of a text say that a byte may follow which is no UTF-8.
fn read_lines(alloc: Global, text: &[char], bad: Option<LoadFault>) -> Result<Draft, AllocError>
    requires { length text.now ≤ 2 ^ 30 }
    ensures { IfOk result (λ draft. whole bad draft [] ≡ whole bad start (lines (is_some bad) 0 1 text.now)) }
{
    let mut draft = Draft::new(alloc);
    let mut number = 1;
    let mut rest = text;
    while let [_, ..] = rest {
        let found = next_line(alloc, bad.is_some(), rest)?;
        draft.add(found.line, number, bad)?;
        let (front, after) = rest.split_at(found.size.saturating_sub(1) + 1);
        number = number_behind(number, front);
        rest = after;
    }
    Ok(draft)
}

/// The text of the main scene, if its value is a string.
fn main_scene(alloc: Global, value: Option<Text>) -> Result<Option<Text>, AllocError>
    ensures { IfOk result (λ found. found ≡ text_in value) }
{
    let Some(value) = value else {
        return Ok(None);
    };
    let characters = characters(alloc, value.as_str())?;
    string_value(alloc, characters.as_slice())
}

/// What all lines say.
fn finish(alloc: Global, draft: Draft, bad: Option<LoadFault>) -> Result<ProjectFile, SolveError>
    ensures { IsProjectAnswer result (answer_of bad draft) }
{
    if !draft.has_version {
        let kind = FaultKind::SceneSyntax;
        let place = Place { line: 1, column: 1 };
        return Err(SolveError::Fault(LoadFault { kind, place }));
    }
    match draft.fault.or(bad) {
        Some(fault) => Err(SolveError::Fault(fault)),
        None => {
            let main_scene = main_scene(alloc, draft.main)?;
            Ok(ProjectFile {
                main_scene,
                autoloads: draft.autoloads,
            })
        }
    }
}

/// The settings in the bytes of a `project.godot`, or their first fault: `BadBytes` or `SceneSyntax`.
///
/// The file has sections `[name]`, lines `key=value`, comments behind `;` and blank lines, as the Godot editor writes them. A
/// value goes up to the first line end outside strings and brackets.
#[tactic(auto, unfolding(scene_syntax::specs::Project::project_of))]
pub fn project_file(alloc: Global, bytes: &[u8]) -> Result<ProjectFile, SolveError>
    requires { length bytes.now ≤ 1048576 }
    ensures { IsProjectAnswer result (project_of bytes.now) }
{
    let valid = valid_front(bytes);
    let characters = characters(alloc, valid)?;
    let text = without_mark(characters.as_slice());
    let bad = bad_byte(valid.len() == bytes.len(), text);
    let draft = read_lines(alloc, text, bad)?;
    finish(alloc, draft, bad)
}
