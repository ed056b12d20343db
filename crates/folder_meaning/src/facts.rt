// What the analysis of a file finds, stage by stage.

use crate::const_value::ConstValue;
use crate::script_type::ScriptType;
use crate::shared::Shared;
use gd_syntax::{Place, Script};
use tree_lists::Items;
use variant_values::{ClassId, ClassTag, Lineage};

/// A declaration of a class: its number among the members of the class, and that of an enum's item its number there
/// too.
#[derive(Clone, Copy, Debug, PartialEq, Eq)]
pub struct Declaration {
    pub class_id: ClassId,
    pub member: u32,
    pub item: Option<u32>,
}

/// What a node names.
#[derive(Clone, Copy, Debug, PartialEq, Eq)]
pub enum Referent {
    /// the local whose name is declared there
    Local(Place),
    Member(Declaration),
    Class(ClassTag),
    /// the file of a scene that is loaded
    Scene(u32),
    /// an autoload, by its number among the globals
    Autoload(u32),
    /// a global function
    Global,
    /// a method or a field that no script declares
    Native,
}

/// What is known of a node of a body, where it names something or has a type.
#[derive(Clone, Copy, Debug, PartialEq, Eq)]
pub struct NodeFacts {
    pub referent: Option<Referent>,
    pub type_of: Option<ScriptType>,
}

/// The nodes of a member's declaration, in the order of the tree, each before its parts.
#[derive(Drop)]
pub struct BodyFacts {
    pub nodes: Items<NodeFacts>,
}

#[derive(Clone, Copy, Debug, PartialEq, Eq)]
pub struct ParamFacts {
    pub type_of: ScriptType,
    pub has_default: bool,
}

/// How a function is called, or a signal emitted, which gives nothing.
#[derive(Drop)]
pub struct Signature {
    pub is_static: bool,
    pub params: Items<ParamFacts>,
    pub result: ScriptType,
}

/// A member of a class: its declaration, and its constant value, its type and its signature, where it has these.
#[derive(Drop)]
pub struct MemberFacts {
    pub declaration: Declaration,
    pub value: Option<Shared<ConstValue>>,
    /// the values of an enum's items
    pub items: Items<i64>,
    pub type_of: Option<ScriptType>,
    pub signature: Option<Shared<Signature>>,
}

/// A class of a file.
#[derive(Drop)]
pub struct ClassFacts {
    /// where an inner class is declared
    pub outer: Option<Declaration>,
    pub base: ClassTag,
    /// the class and its ancestors, nearest first
    pub lineage: Lineage,
    /// By the numbers of the members. Before stage 3 there are none.
    pub members: Items<MemberFacts>,
}

/// What a file holds.
#[derive(Debug, Drop)]
pub enum Content {
    Script(Script),
}

/// The facts of a file up to the stage that it has reached. What a later stage states is empty before it. The facts of
/// the next stage share those of this one.
#[derive(Drop)]
pub struct FileFacts {
    /// from 1 to 5
    pub stage: u8,
    pub content: Shared<Content>,
    /// the files of the folder that the file names
    pub links: Shared<Items<u32>>,
    /// the files that its classes stand on
    pub bases: Shared<Items<u32>>,
    /// From stage 2 on, by their places among the classes of the file.
    pub classes: Shared<Items<ClassFacts>>,
    /// From stage 4 on, by the place of the class and the number of the member.
    pub bodies: Shared<Items<Items<BodyFacts>>>,
}
