// The types of the language.

use variant_values::{ClassTag, ElementTag};

/// A type of the language, after the Godot manual's "GDScript reference", "Built-in types".
#[derive(Clone, Copy, Debug, PartialEq, Eq)]
pub enum ScriptType {
    Variant,
    Null,
    /// the result of what gives nothing
    Void,
    Bool,
    Int,
    Str,
    /// an array, and the type of its elements where it has one
    Array(Option<ElementTag>),
    Dict,
    Callable,
    Signal,
    Scene,
    Weak,
    /// an object of the class or of one below it, or null
    Instance(ClassTag),
    /// the class itself, as a value
    ClassValue(ClassTag),
}
