//! What the file of a project's settings, `project.godot`, and text scenes mean: their content, or the first fault.
#![tactic(auto)]

mod laws;
mod project;
mod scene;

pub use laws::{scenes_are_read_as_worked_out, settings_are_read_as_worked_out};
pub use project::{AutoloadLine, ProjectFile};
pub use scene::{
    Heading, HeadingKind, NodeOrigin, Property, ResourceType, ResourceUse, SceneFile, SceneValue,
};
