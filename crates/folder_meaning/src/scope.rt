// Where an expression stands.

use crate::script_type::ScriptType;
use gd_syntax::{Name, Place};
use tree_lists::Items;
use variant_values::ClassId;

/// The scope of an expression of a body: the class in whose code it stands, the place of the function's name, and the
/// locals that are open there, with their types, in order.
#[derive(Drop)]
pub struct Scope {
    pub class_id: ClassId,
    pub func_place: Place,
    pub is_static: bool,
    pub locals: Items<(Name, ScriptType)>,
}
