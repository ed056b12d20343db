// The classes of the cases: `Lamp` extends Node, `Lantern` extends Lamp, `Table` extends Object and `Chair` extends
// RefCounted.
ghost use Rattle.std.specs.Prelude.{◌≡◌, is_some, IfOk, IfSome, None, []};
ghost use Rattle.std.specs.List.{list_any};
ghost use Rattle.variant_values.specs.Classes.{is_node_class};

use std::alloc::{AllocError, Global};
use variant_values::cells::{NodePart, Serials};
use variant_values::classes::{ClassId, ClassNames, ClassTag, ElementTag, Lineage};
use variant_values::texts::Str;

const LAMP: ClassTag = ClassTag::Script(ClassId { file: 0, index: 0 });

const LANTERN: ClassTag = ClassTag::Script(ClassId { file: 0, index: 1 });

const TABLE: ClassTag = ClassTag::Script(ClassId { file: 0, index: 2 });

const CHAIR: ClassTag = ClassTag::Script(ClassId { file: 1, index: 0 });

const CLASSES: [(ClassTag, &str); 7] = [
    (ClassTag::Object, "Object"),
    (ClassTag::RefCounted, "RefCounted"),
    (ClassTag::Node, "Node"),
    (LAMP, "Lamp"),
    (LANTERN, "Lantern"),
    (TABLE, "Table"),
    (CHAIR, "Chair"),
];

/// The names of the classes, for texts.
pub fn class_names(alloc: Global) -> Result<ClassNames, AllocError> {
    let mut pairs = Vec::new(alloc);
    for (tag, name) in CLASSES {
        pairs.push((tag, Str::new(alloc, name)?))?;
    }
    Ok(ClassNames::new(pairs))
}

/// The class of a name.
pub fn class_of(name: &str) -> Option<ClassTag> {
    for (tag, other) in CLASSES {
        if name == other {
            return Some(tag);
        }
    }
    None
}

/// The class that a class extends.
fn base_of(tag: ClassTag) -> Option<ClassTag> {
    match tag {
        LAMP => Some(ClassTag::Node),
        LANTERN => Some(LAMP),
        CHAIR => Some(ClassTag::RefCounted),
        ClassTag::Object => None,
        _ => Some(ClassTag::Object),
    }
}

/// A class and its ancestors.
pub fn lineage_of(alloc: Global, tag: ClassTag) -> Result<Lineage, AllocError> {
    let mut tags = Vec::new(alloc);
    tags.push(tag)?;
    let mut below = tag;
    for _ in 0..CLASSES.len() {
        let Some(base) = base_of(below) else {
            break;
        };
        tags.push(base)?;
        below = base;
    }
    Ok(Lineage::new(alloc, tags)?)
}

fn is_node_class(tag: &ClassTag) -> bool
    ensures { result ≡ is_node_class tag.now }
{
    match tag {
        ClassTag::Node => true,
        ClassTag::Object => false,
        ClassTag::RefCounted => false,
        ClassTag::Script(_) => false,
    }
}

fn any_node(tags: &[ClassTag]) -> bool
    ensures { result ≡ list_any is_node_class tags.now }
{
    tags.iter().any(|t| is_node_class(t))
}

/// What an object of the classes has beside its fields.
pub fn node_part(alloc: Global, tags: &[ClassTag]) -> Result<Option<NodePart>, AllocError>
    ensures node { IfOk result (λ part. is_some part ≡ list_any is_node_class tags.now) }
    ensures fresh { IfOk result (λ part. IfSome part (λ n. (n.parent ≡ None) × (n.children ≡ []))) }
{
    if !any_node(tags) {
        return Ok(None);
    }
    Ok(Some(NodePart {
        name: Str::new(alloc, "")?,
        parent: None,
        children: Serials::new(alloc),
    }))
}

/// The element type of a name.
pub fn element_of(name: &str) -> Option<ElementTag> {
    match name {
        "bool" => Some(ElementTag::Bool),
        "int" => Some(ElementTag::Int),
        "String" => Some(ElementTag::Str),
        "Array" => Some(ElementTag::Array),
        "Dictionary" => Some(ElementTag::Dict),
        "Callable" => Some(ElementTag::Callable),
        "Signal" => Some(ElementTag::Signal),
        "PackedScene" => Some(ElementTag::Scene),
        "WeakRef" => Some(ElementTag::Weak),
        _ => class_of(name).map(|tag| ElementTag::Class(tag)),
    }
}

/// The name of an element type.
pub fn element_name<'a>(names: &'a ClassNames, element: ElementTag) -> &'a str {
    match element {
        ElementTag::Bool => "bool",
        ElementTag::Int => "int",
        ElementTag::Str => "String",
        ElementTag::Array => "Array",
        ElementTag::Dict => "Dictionary",
        ElementTag::Callable => "Callable",
        ElementTag::Signal => "Signal",
        ElementTag::Scene => "PackedScene",
        ElementTag::Weak => "WeakRef",
        ElementTag::Class(tag) => names.text(tag),
    }
}
