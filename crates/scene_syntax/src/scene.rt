// What a text scene says (Godot manual, "TSCN file format", format 3).
use gd_syntax::{Name, Place, Text};
use tree_lists::Items;

/// `ExtResource("id")`, with the place of its first character.
#[derive(Debug, PartialEq, Drop)]
pub struct ResourceUse {
    pub place: Place,
    pub id: Text,
}

#[derive(Debug, PartialEq, Drop)]
pub enum SceneValue {
    Null,
    Bool(bool),
    Int(i64),
    Str(Text),
    Array(Items<SceneValue>),
    Dict(Items<(SceneValue, SceneValue)>),
    Resource(ResourceUse),
}

/// `name = value`, with the place of its first character.
#[derive(Debug, PartialEq, Drop)]
pub struct Property {
    pub place: Place,
    pub name: Name,
    pub value: SceneValue,
}

#[derive(Clone, Copy, Debug, PartialEq, Eq)]
pub enum ResourceType {
    Script,
    PackedScene,
}

/// `type="Node"`, or `instance=ExtResource("id")`.
#[derive(Debug, PartialEq, Drop)]
pub enum NodeOrigin {
    Node,
    Instance(ResourceUse),
}

/// What a heading says. A node without a parent is the root.
#[derive(Debug, PartialEq, Drop)]
pub enum HeadingKind {
    /// `gd_scene`, with its `uid` as it stands between the quotes
    Scene(Option<Text>),
    /// `ext_resource`: its type, path and id
    Resource(ResourceType, Text, Text),
    /// `node`: its name and parent
    Node(Text, Option<Text>, NodeOrigin),
    /// `connection`: its signal, from, to and method
    Connection(Text, Text, Text, Text),
}

/// A heading, with the place of its first character, and the properties below it that are not skipped.
#[derive(Debug, PartialEq, Drop)]
pub struct Heading {
    pub place: Place,
    pub kind: HeadingKind,
    pub properties: Items<Property>,
}

/// The headings of a scene in their order, of which `gd_scene` is the first.
#[derive(Debug, PartialEq, Drop)]
pub struct SceneFile {
    pub headings: Items<Heading>,
}
