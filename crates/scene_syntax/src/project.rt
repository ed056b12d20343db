// What a project's settings say of its start.
use gd_syntax::{Name, Text};
use tree_lists::Items;

/// A line `key=value` of the section `[autoload]`, with the number of its first line. The value is the text behind `=`.
#[derive(Debug, PartialEq, Drop)]
pub struct AutoloadLine {
    pub key: Name,
    pub value: Text,
    pub line: u32,
}

/// What a project starts with: the text of its main scene, where the last `run/main_scene` of the section `[application]` is a
/// string, and the lines of `[autoload]` in their order.
#[derive(Debug, PartialEq, Drop)]
pub struct ProjectFile {
    pub main_scene: Option<Text>,
    pub autoloads: Items<AutoloadLine>,
}
