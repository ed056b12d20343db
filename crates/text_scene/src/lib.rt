//! The settings of a project, read from the bytes of their file `project.godot`.
#![tactic(auto)]

mod characters;
mod draft;
mod escapes;
mod lines;
mod project;
#[cfg(test)]
mod tests;
mod values;

pub use project::project_file;
