// Worked rows of the definitions.
ghost use Rattle.scene_syntax.specs.ProjectRows.{ProjectRows};
ghost use Rattle.scene_syntax.specs.SceneRows.{SceneRows};

/// Settings that were read by hand: the main scene and the autoload lines that a file has, or its first fault.
pub fn settings_are_read_as_worked_out()
    ensures { ProjectRows }
{}

/// Scenes that were read by hand: the headings and properties that a file has, or its first fault, and the uid of its heading.
pub fn scenes_are_read_as_worked_out()
    ensures { SceneRows }
{}
