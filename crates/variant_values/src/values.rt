use crate::classes::ClassTag;
use crate::texts::Str;

/// A cell's number in the heap, from 1.
#[derive(Clone, Copy, Debug, PartialEq, Eq, Hash)]
pub struct Serial(pub u64);

/// A value of the language. Arrays, dictionaries and objects stand in cells of the heap, and are named by serial.
#[derive(Clone, Drop)]
pub enum Value {
    Null,
    Bool(bool),
    Int(i64),
    Str(Str),
    Array(Serial),
    Dict(Serial),
    Object(Serial),
    /// An object, and a method's name.
    Callable(Serial, Str),
    /// An object, and a signal's name.
    Signal(Serial, Str),
    Class(ClassTag),
    /// The file's number, and its path.
    Scene(u32, Str),
    Weak(Serial),
}

/// A key of a dictionary.
#[derive(Clone, Drop, PartialEq, Eq, Hash)]
pub enum Key {
    Bool(bool),
    Int(i64),
    Str(Str),
    Object(Serial),
}
