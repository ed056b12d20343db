//! The code of a file.

use crate::instructions::Op;
use folder_meaning::{ConstValue, ScriptType};
use gd_syntax::Name;
use tree_lists::Items;
use variant_values::{ClassTag, Str};

/// A parameter: what a value has to fit that is not sure to, and whether an argument may be left out.
#[derive(Clone, Copy)]
pub struct Parameter {
    pub type_of: ScriptType,
    pub has_default: bool,
}

/// A function: the line of its name, its parameters, how many registers its frame has, and its instructions. A field's
/// initialiser is one too, without parameters. The units of defaults stand before the body.
#[derive(Drop)]
pub struct FunctionCode {
    pub line: u32,
    pub is_static: bool,
    pub parameters: Items<Parameter>,
    pub registers: u8,
    pub ops: Items<Op>,
}

/// A function that code calls without a look-up.
#[derive(Drop)]
pub struct KnownFunction {
    pub class_tag: ClassTag,
    pub name: Name,
}

/// A field: the line of its name, its type, and its initialiser by the number of the function.
#[derive(Drop)]
pub struct FieldCode {
    pub name: Name,
    pub line: u32,
    pub type_of: ScriptType,
    pub initial: Option<u32>,
    pub when_ready: bool,
}

/// A name of a class, and the constant or the function that it has by number.
#[derive(Drop)]
pub struct NamedCode {
    pub name: Name,
    pub number: u32,
}

/// A class of the file: its name in texts, its base, and what it declares.
#[derive(Drop)]
pub struct ClassCode {
    pub name: Str,
    pub base: ClassTag,
    pub fields: Items<FieldCode>,
    pub functions: Items<NamedCode>,
    pub constants: Items<NamedCode>,
    pub signals: Items<Name>,
}

/// A global row: an autoload's name, and its file.
#[derive(Drop)]
pub struct GlobalRow {
    pub name: Name,
    pub file: u32,
}

/// What a node of a scene is made of.
#[derive(Clone, Copy)]
pub enum NodeSource {
    Class(ClassTag),
    /// Another scene, by its file's number.
    Scene(u32),
}

/// An exported value that a scene sets, by the number of a constant.
#[derive(Drop)]
pub struct ExportedValue {
    pub name: Name,
    pub constant: u32,
}

/// A node of a scene: its name, its parent by number, what it is made of, and the values that are set.
#[derive(Drop)]
pub struct SceneNode {
    pub name: Name,
    pub parent: Option<u32>,
    pub source: NodeSource,
    pub values: Items<ExportedValue>,
}

/// A connection of a scene, between nodes by number.
#[derive(Drop)]
pub struct SceneConnection {
    pub from: u32,
    pub signal: Name,
    pub to: u32,
    pub method: Name,
}

/// A scene: its nodes in the order of the file, and its connections.
#[derive(Drop)]
pub struct SceneCode {
    pub nodes: Items<SceneNode>,
    pub connections: Items<SceneConnection>,
}

/// The code of a file, a script or a scene. What instructions name by number stands in its lists.
#[derive(Drop)]
pub struct Code {
    pub file: u32,
    pub functions: Items<FunctionCode>,
    pub constants: Items<ConstValue>,
    pub names: Items<Name>,
    pub known_functions: Items<KnownFunction>,
    pub classes: Items<ClassCode>,
    pub globals: Items<GlobalRow>,
    pub scene: Option<SceneCode>,
}
