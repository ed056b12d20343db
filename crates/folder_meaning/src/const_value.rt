// The values of constants.

use tree_lists::Items;
use variant_values::{ClassTag, Str};

/// The value of a constant. An array or a dictionary is its contents, since each read makes it anew.
#[derive(Drop, PartialEq)]
pub enum ConstValue {
    Null,
    Bool(bool),
    Int(i64),
    Str(Str),
    Array(Items<ConstValue>),
    /// the keys and their values, in order
    Dict(Items<(ConstValue, ConstValue)>),
    Class(ClassTag),
    /// the file's number, and its path
    Scene(u32, Str),
}
